// Instructions of two operands, neither of them a register.
ghost use Rattle.std.specs.Prelude.{◌≡◌, true, ◌^◌, ◌<◌};
ghost use Rattle.isa.specs.declared.Operand.TheVariants as operand;
ghost use Rattle.access_spec.specs.Clauses.{only_read, IfElse};
ghost use Rattle.datapath.specs.Clauses.{entry_cpu};
ghost use Rattle.exec_spec.specs.Operands.{read_operand};
ghost use Rattle.exec_spec.specs.Execute.{two_operands, execute_normal};
ghost use Rattle.fast_dyadic.specs.Fast.{is_fast, after_source};
ghost use Rattle.fast_dyadic.specs.Clauses.{Gives, GivesReadOnly, FastEnds, StackAsBefore, AllUnchanged};

use crate::NOT_TAKEN;
use crate::after_source::fast_finish;
use crate::cache_words::{cached_address, cached_finish, cached_source, is_stack_word};
use crate::places::{fast_address, fast_value};
use access::NOWHERE;
use exec_registers::flow::advance_pc;
use exec_spec::Task;
use isa::{Mode, Wide};
use machine::{Bank, Quads};
use memory::answers::low32;

// A source anywhere in memory; 2^32 or more where it is not read.
fn memory_source(m: &[u8], q: &Quads, r: &Bank, wide: Wide, mode: Mode, v: u32) -> u64
    ensures { result < 2 ^ 32 → GivesReadOnly result m.now (read_operand (entry_cpu (only_read q) (only_read r)) wide (operand.General mode v)) }
{
    let k = fast_address(m, q, r, wide, mode, v);
    if NOWHERE <= k {
        return k;
    }
    fast_value(m, q, r, mode, v, low32(k))
}

// The source's value; 2^32 or more where it is not read.
fn source(m: &[u8], q: &Quads, r: &Bank, wide: Wide, mode: Mode, v: u32) -> u64
    ensures { result < 2 ^ 32 → GivesReadOnly result m.now (read_operand (entry_cpu (only_read q) (only_read r)) wide (operand.General mode v)) }
{
    let x = cached_source(q, r, mode, v);
    if x < NOT_TAKEN {
        return x;
    }
    memory_source(m, q, r, wide, mode, v)
}

// What is left with the source x.
fn finish(
    m: &mut [u8],
    q: &mut Quads,
    r: &mut Bank,
    wide: Wide,
    t: Task,
    mode: Mode,
    d: u32,
    x: u32,
) -> bool
    ensures { IfElse result ((is_fast t ≡ true) × Gives m q r (λ c. after_source c wide t (operand.General mode d) x) × StackAsBefore q r)
        (AllUnchanged m q r) }
{
    if is_stack_word(mode) {
        let a = cached_address(r, d);
        if a < NOWHERE {
            return cached_finish(q, r, t, low32(a), x);
        }
    }
    fast_finish(m, q, r, wide, t, mode, d, x)
}

// The whole instruction, and PC n parcels on.
pub fn fast_two(
    m: &mut [u8],
    q: &mut Quads,
    r: &mut Bank,
    n: u32,
    wide: Wide,
    t: Task,
    sm: Mode,
    s: u32,
    dm: Mode,
    d: u32,
) -> bool
    ensures { FastEnds result m q r (λ c. execute_normal c n (two_operands wide t (operand.General sm s) (operand.General dm d))) }
{
    let x = source(m, q, r, wide, sm, s);
    if NOT_TAKEN <= x {
        return false;
    }
    let instruction_done = finish(m, q, r, wide, t, dm, d, low32(x));
    if !instruction_done {
        return false;
    }
    advance_pc(r, n);
    true
}
