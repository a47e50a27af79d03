// CATCH.
ghost use Rattle.std.specs.Prelude.{cond};
ghost use Rattle.access.specs.Followed.{regime_for};
ghost use Rattle.machine.specs.Status.{sp_current};
ghost use Rattle.datapath.specs.Parts.{done};
ghost use Rattle.datapath.specs.Clauses.{Ends};
ghost use Rattle.exec_spec.specs.Stack.{catch_to, catch_current, catch as catch_of};

use crate::targets::{check_msp, stack_target};
use access_spec::Journal;
use datapath_moves::filling::fill;
use exec_registers::flow::advance_pc;
use isa::MonadicMode;
use machine::places::{MSP, SP, STB};
use machine::status::{cache_on, is_user, is_virtual, sp_current};
use machine::{Bank, Quads};
use memory::answers::{EXCEPTION, low32};

// The cache is filled up to the target, in a regime given by its numbers.
pub fn catch_to(
    m: &mut [u8],
    journal: &mut Journal,
    q: &mut Quads,
    r: &mut Bank,
    stb: u32,
    user: bool,
    translated: bool,
    target: u32,
) -> u64
    ensures { Ends result m journal q r (λ c. catch_to c (regime_for stb user translated) target) }
{
    let old = r[MSP];
    let x = fill(m, journal, q, r, stb, user, translated, target);
    if EXCEPTION <= x {
        return x;
    }
    let new = r[MSP];
    let y = check_msp(m, r, stb, user, translated, old, new);
    if EXCEPTION <= y {
        return y;
    }
    y
}

// SP is current.
fn catch_current(
    m: &mut [u8],
    journal: &mut Journal,
    q: &mut Quads,
    r: &mut Bank,
    mode: MonadicMode,
    v: u32,
) -> u64
    ensures { Ends result m journal q r (λ c. catch_current c mode v) }
{
    let x = stack_target(m, journal, q, r, mode, v);
    if EXCEPTION <= x {
        return x;
    }
    if cache_on(r) {
        let stb = r[STB];
        let user = is_user(r);
        let translated = is_virtual(r);
        let a = low32(x);
        catch_to(m, journal, q, r, stb, user, translated, a)
    } else {
        r[MSP] = r[SP];
        0
    }
}

// On the interrupt stack nothing is done.
fn catch_held(
    m: &mut [u8],
    journal: &mut Journal,
    q: &mut Quads,
    r: &mut Bank,
    mode: MonadicMode,
    v: u32,
) -> u64
    ensures { Ends result m journal q r (λ c. cond (sp_current c.bank) (catch_current c mode v) (done c)) }
{
    if sp_current(r) {
        catch_current(m, journal, q, r, mode, v)
    } else {
        0
    }
}

// n is the parcels of the instruction.
pub fn catch(
    m: &mut [u8],
    journal: &mut Journal,
    q: &mut Quads,
    r: &mut Bank,
    mode: MonadicMode,
    v: u32,
    n: u32,
) -> u64
    ensures { Ends result m journal q r (λ c. catch_of c mode v n) }
{
    let x = catch_held(m, journal, q, r, mode, v);
    if EXCEPTION <= x {
        return x;
    }
    advance_pc(r, n);
    x
}
