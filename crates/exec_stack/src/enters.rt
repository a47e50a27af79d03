// ENTER.
ghost use Rattle.std.specs.Prelude.{◌≡◌};
ghost use Rattle.access_spec.specs.Clauses.{only_read};
ghost use Rattle.datapath.specs.Clauses.{Ends, EndsReadOnly};
ghost use Rattle.exec_spec.specs.Stack.{enter_plain, enter_uncached, enter_empty, enter_offset, enter_at, clipped as clipped_of, enter as enter_of, enter_clipped};

use crate::targets::{check_msp, check_target, stack_target};
use access_spec::Journal;
use datapath_moves::flushing::flush;
use decode_tables::legal::is_stack;
use exec_registers::flow::{advance_pc, with_csp};
use exec_registers::status::with_guard;
use isa::MonadicMode;
use machine::places::{MSP, STB};
use machine::status::{cache_on, is_user, is_virtual, sp_current};
use machine::{Bank, Quads, STACK_CACHE_BYTES};
use memory::answers::{EXCEPTION, low32};
use word::fields::clear_low;
use word::sums::{minus, plus};

// The interrupt stack is current: nothing is moved.
fn enter_plain(m: &[u8], r: &mut Bank, target: u32) -> u64
    ensures { EndsReadOnly result m.now r (λ c. enter_plain c target) }
{
    let x = check_target(m, r, target);
    if EXCEPTION <= x {
        return x;
    }
    with_csp(r, target);
    x
}

// The cache is off, or empty.
fn enter_uncached(m: &[u8], r: &mut Bank, target: u32) -> u64
    ensures { EndsReadOnly result m.now r (λ c. enter_uncached c target) }
{
    let x = check_target(m, r, target);
    if EXCEPTION <= x {
        return x;
    }
    with_csp(r, target);
    r[MSP] = target;
    x
}

// All is flushed.
fn enter_empty(m: &mut [u8], journal: &mut Journal, q: &Quads, r: &mut Bank, target: u32) -> u64
    ensures { Ends result m journal (only_read q) r (λ c. enter_empty c target) }
{
    let x = flush(m, journal, q, r, true, target);
    if EXCEPTION <= x {
        return x;
    }
    enter_uncached(m, r, target)
}

// MSP after ENTER by a stack offset: at most the cache's size above the target.
fn clipped(old: u32, msp: u32, target: u32) -> u32
    ensures { result ≡ clipped_of old msp target }
{
    if STACK_CACHE_BYTES < minus(old, target) {
        let top = plus(target, STACK_CACHE_BYTES);
        if top < msp { top } else { msp }
    } else {
        msp
    }
}

// Both pointers are checked, then set; old is MSP before the flush.
fn enter_clipped(m: &[u8], r: &mut Bank, target: u32, old: u32) -> u64
    ensures { EndsReadOnly result m.now r (λ c. enter_clipped c target old) }
{
    let new = clipped(old, r[MSP], target);
    let x = check_target(m, r, target);
    if EXCEPTION <= x {
        return x;
    }
    let stb = r[STB];
    let user = is_user(r);
    let translated = is_virtual(r);
    let y = check_msp(m, r, stb, user, translated, old, new);
    if EXCEPTION <= y {
        return y;
    }
    with_csp(r, target);
    r[MSP] = new;
    y
}

// Only what is too much is flushed.
fn enter_offset(m: &mut [u8], journal: &mut Journal, q: &Quads, r: &mut Bank, target: u32) -> u64
    ensures { Ends result m journal (only_read q) r (λ c. enter_offset c target) }
{
    let old = r[MSP];
    let x = flush(m, journal, q, r, false, target);
    if EXCEPTION <= x {
        return x;
    }
    enter_clipped(m, r, target, old)
}

fn enter_at(
    m: &mut [u8],
    journal: &mut Journal,
    q: &Quads,
    r: &mut Bank,
    mode: MonadicMode,
    target: u32,
) -> u64
    ensures { Ends result m journal (only_read q) r (λ c. enter_at c mode target) }
{
    if sp_current(r) {
        if cache_on(r) {
            if is_stack(mode) {
                enter_offset(m, journal, q, r, target)
            } else {
                enter_empty(m, journal, q, r, target)
            }
        } else {
            enter_uncached(m, r, target)
        }
    } else {
        enter_plain(m, r, target)
    }
}

// n is the parcels of the instruction.
pub fn enter(
    m: &mut [u8],
    journal: &mut Journal,
    q: &Quads,
    r: &mut Bank,
    mode: MonadicMode,
    v: u32,
    n: u32,
) -> u64
    ensures { Ends result m journal (only_read q) r (λ c. enter_of c mode v n) }
{
    let x = stack_target(m, journal, q, r, mode, v);
    if EXCEPTION <= x {
        return x;
    }
    let target = clear_low(low32(x), 4);
    let y = enter_at(m, journal, q, r, mode, target);
    if EXCEPTION <= y {
        return y;
    }
    with_guard(r, true);
    advance_pc(r, n);
    y
}
