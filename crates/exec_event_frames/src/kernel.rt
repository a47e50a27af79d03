// KCALL and KRET.
ghost use Rattle.datapath.specs.Clauses.{Ends, EndsAnyCache};
ghost use Rattle.access_spec.specs.Clauses.{only_read};
ghost use Rattle.exec_spec.specs.EventFrames.{kcall as kcall_of, kret as kret_of};

use crate::pushes::{push_frame, through_vector};
use access_spec::Journal;
use datapath::RESETS;
use datapath::data::read_frame;
use exec_flow::words::read_word32;
use exec_registers::event_frames::returned;
use exec_registers::flow::next_pc;
use isa::MonadicMode;
use machine::places::ISP;
use machine::{Bank, Quads};
use memory::answers::{EXCEPTION, low32};
use word::sums::plus;

// n is the parcels of the instruction.
pub fn kcall(
    m: &mut [u8],
    journal: &mut Journal,
    q: &Quads,
    r: &mut Bank,
    mode: MonadicMode,
    v: u32,
    n: u32,
) -> u64
    ensures { Ends result m journal (only_read q) r (λ c. kcall_of c mode v n) }
{
    let x = read_word32(m, journal, q, r, mode, v);
    if EXCEPTION <= x {
        return x;
    }
    let a = low32(x);
    let p = next_pc(r, n);
    let y = push_frame(m, journal, r, a, p);
    if EXCEPTION <= y {
        return y;
    }
    through_vector(m, journal, r, 0)
}

// At kernel level; at user level it is exception 5.
pub fn kret(m: &mut [u8], journal: &mut Journal, r: &mut Bank) -> u64
    ensures { EndsAnyCache result m journal r kret_of }
{
    let i = plus(r[ISP], 8);
    let x = read_frame(m, journal, r, i);
    if EXCEPTION <= x {
        return RESETS;
    }
    let j = plus(r[ISP], 12);
    let y = read_frame(m, journal, r, j);
    if EXCEPTION <= y {
        return RESETS;
    }
    let a = low32(x);
    let p = low32(y);
    returned(r, a, p);
    y
}
