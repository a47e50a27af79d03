// Jumps, and calls, returns, ENTER and CATCH that move no word between cache and memory.
ghost use Rattle.std.specs.Prelude.{◌≡◌, true, false};
ghost use Rattle.access_spec.specs.Clauses.{only_read, unchanged, IfElse};
ghost use Rattle.datapath.specs.Parts.{done};
ghost use Rattle.datapath.specs.Clauses.{entry_cpu, exit_cpu, Becomes};
ghost use Rattle.exec_spec.specs.Control.{jump as jump_of, jump_if, call as call_of, return as return_of, released as released_of, pc_advanced as advanced_of};
ghost use Rattle.exec_spec.specs.Stack.{enter as enter_of, catch as catch_of};
ghost use Rattle.exec_spec.specs.Execute.{one_operand, execute_monadic};
ghost use Rattle.step_spec.specs.Step.{holds_stack};
ghost use Rattle.run_spec.specs.Run.{is_kcall};
ghost use Rattle.fast_dyadic.specs.Fast.{is_relative};
ghost use Rattle.fast_dyadic.specs.Clauses.{Gives, StackAsBefore};
ghost use Rattle.fast.specs.Clauses.{DoneAnyCache, GivesAnyCache, StackAsBeforeAnyCache, StackHeldAnyCache};

use datapath::data::check_store;
use decode_tables::legal::is_stack;
use exec_registers::flow::{advance_pc, jumped, next_pc, released, stack_address, with_csp};
use exec_registers::status::with_guard;
use exec_spec::Monadic;
use fast_dyadic::NOT_TAKEN;
use fast_dyadic::accesses::fast_read;
use isa::MonadicMode;
use machine::bits::FLAG;
use machine::cache::cache_write;
use machine::places::{MSP, PC, PSW, SP};
use machine::registers::stack_held;
use machine::status::{cache_on, cached};
use machine::{Bank, Quads, STACK_CACHE_BYTES};
use memory::answers::{EXCEPTION, low32};
use word::Width;
use word::fields::{bit, clear_low};
use word::sums::{minus, plus};

fn is_relative(m: MonadicMode) -> bool
    ensures { result ≡ is_relative m }
{
    match m {
        MonadicMode::WordAbsolute => false,
        MonadicMode::WordStack => false,
        MonadicMode::WordIndirect => false,
        MonadicMode::WordImmediate => false,
        MonadicMode::FlowAbsoluteIndirect => false,
        MonadicMode::FlowStackIndirect => false,
        MonadicMode::FlowRelative => true,
        MonadicMode::FlowAbsolute => false,
    }
}

// JMP.
fn jump(r: &mut Bank, mode: MonadicMode, v: u32) -> bool
    ensures { IfElse result (DoneAnyCache r (λ c. jump_of c mode v) × StackAsBeforeAnyCache r) (unchanged r) }
{
    if is_relative(mode) {
        let a = plus(r[PC], v);
        jumped(r, a);
        return true;
    }
    false
}

// JMPT and JMPF.
fn jump_if(r: &mut Bank, taken: bool, mode: MonadicMode, v: u32, n: u32) -> bool
    ensures { IfElse result (DoneAnyCache r (λ c. jump_if taken c mode v n) × StackAsBeforeAnyCache r) (unchanged r) }
{
    if taken {
        return jump(r, mode, v);
    }
    advance_pc(r, n);
    true
}

// CALL.
fn call(q: &mut Quads, r: &mut Bank, mode: MonadicMode, v: u32, n: u32) -> bool
    ensures { IfElse result ((call_of (entry_cpu q r) mode v n ≡ done (exit_cpu q r)) × StackAsBefore q r) (unchanged r × unchanged q) }
{
    if !is_relative(mode) {
        return false;
    }
    let s = r[SP];
    if !cached(r, s) {
        return false;
    }
    if s % 4 != 0 {
        return false;
    }
    cache_write(Width::Word, q, s, next_pc(r, n));
    let a = plus(r[PC], v);
    jumped(r, a);
    true
}

// RETURN; one that would lose its stack is left to the step that refuses it.
fn return_from(m: &[u8], q: &Quads, r: &mut Bank, v: u32) -> bool
    ensures { IfElse result (Gives (only_read m) (only_read q) r (λ c. return_of c v) × (holds_stack (exit_cpu (only_read q) r) ≡ true)) (unchanged r) }
{
    let kept = *r;
    let a = stack_address(r, v);
    let x = fast_read(m, q, r, Width::Word, a);
    if x < NOT_TAKEN {
        released(r, v);
        jumped(r, low32(x));
        if stack_held(r[SP], r[MSP]) {
            return true;
        }
        *r = kept;
    }
    false
}

// POPN, likewise.
fn pop(r: &mut Bank, v: u32, n: u32) -> bool
    ensures { IfElse result (Becomes r (λ c. advanced_of (released_of c v) n) × StackHeldAnyCache r) (unchanged r) }
{
    let kept = *r;
    released(r, v);
    advance_pc(r, n);
    if stack_held(r[SP], r[MSP]) {
        return true;
    }
    *r = kept;
    false
}

// CATCH whose words the cache holds already: nothing is filled.
fn catch(r: &mut Bank, mode: MonadicMode, v: u32, n: u32) -> bool
    ensures { IfElse result (DoneAnyCache r (λ c. catch_of c mode v n) × StackAsBeforeAnyCache r) (unchanged r) }
{
    if !is_stack(mode) {
        return false;
    }
    if !cache_on(r) {
        return false;
    }
    if r[MSP] < stack_address(r, v) {
        return false;
    }
    advance_pc(r, n);
    true
}

// ENTER with room in the cache: nothing is flushed, and the target is checked.
fn enter(m: &[u8], r: &mut Bank, mode: MonadicMode, v: u32, n: u32) -> bool
    ensures { IfElse result (GivesAnyCache (only_read m) r (λ c. enter_of c mode v n) × StackHeldAnyCache r) (unchanged r) }
{
    if !is_stack(mode) {
        return false;
    }
    if !cache_on(r) {
        return false;
    }
    let a = clear_low(stack_address(r, v), 4);
    if STACK_CACHE_BYTES < minus(r[MSP], a) {
        return false;
    }
    if EXCEPTION <= check_store(m, r, a) {
        return false;
    }
    let kept = *r;
    with_csp(r, a);
    with_guard(r, true);
    advance_pc(r, n);
    if stack_held(r[SP], r[MSP]) {
        return true;
    }
    *r = kept;
    false
}

// An instruction of one operand, n parcels long.
pub(crate) fn fast_one(
    m: &[u8],
    q: &mut Quads,
    r: &mut Bank,
    o: Monadic,
    mode: MonadicMode,
    v: u32,
    n: u32,
) -> bool
    ensures { IfElse result
        (Gives (only_read m) q r (λ c. execute_monadic c o mode v n) × (is_kcall (one_operand o mode v) ≡ false)
        × (holds_stack (entry_cpu q r) ≡ true → holds_stack (exit_cpu q r) ≡ true))
        (unchanged r × unchanged q) }
{
    let flag = bit(r[PSW], FLAG);
    match o {
        Monadic::Kcall => false,
        Monadic::Call => call(q, r, mode, v, n),
        Monadic::Return => return_from(m, q, r, v),
        Monadic::Jmp => jump(r, mode, v),
        Monadic::JmpFalse => jump_if(r, !flag, mode, v, n),
        Monadic::JmpTrue => jump_if(r, flag, mode, v, n),
        Monadic::Catch => catch(r, mode, v, n),
        Monadic::Enter => enter(m, r, mode, v, n),
        Monadic::Ldraa => false,
        Monadic::Flush => false,
        Monadic::Popn => pop(r, v, n),
    }
}
