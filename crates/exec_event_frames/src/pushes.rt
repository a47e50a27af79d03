// Frames on the interrupt stack and the vector that an event takes (1.11). A fault of a frame or a vector resets: its
// answer is 2^32. (q stands in the contracts alone.)
ghost use Rattle.datapath.specs.Clauses.{EndsAnyCache};
ghost use Rattle.exec_spec.specs.EventFrames.{push_pair, push_frame, through_vector};

use access_spec::Journal;
use datapath::RESETS;
use datapath::data::{read_frame, write_frame};
use exec_registers::event_frames::{pushed, vectored};
use machine::Bank;
use machine::places::{ISP, PSW, VB};
use memory::answers::{EXCEPTION, low32};
use word::sums::{minus, plus};

// a as PC, and PSW.
pub fn push_pair(m: &mut [u8], journal: &mut Journal, r: &mut Bank, a: u32) -> u64
    ensures { EndsAnyCache result m journal r (λ c. push_pair c a) }
{
    let i = minus(r[ISP], 8);
    let x = write_frame(m, journal, r, i, a);
    if EXCEPTION <= x {
        return RESETS;
    }
    let j = minus(r[ISP], 4);
    let p = r[PSW];
    let y = write_frame(m, journal, r, j, p);
    if EXCEPTION <= y {
        return RESETS;
    }
    pushed(r);
    y
}

// The same with a third word.
pub fn push_frame(m: &mut [u8], journal: &mut Journal, r: &mut Bank, v: u32, a: u32) -> u64
    ensures { EndsAnyCache result m journal r (λ c. push_frame c v a) }
{
    let i = minus(r[ISP], 12);
    let x = write_frame(m, journal, r, i, v);
    if EXCEPTION <= x {
        return RESETS;
    }
    push_pair(m, journal, r, a)
}

// PC from the vector at an offset, and the PSW of a handler.
pub fn through_vector(m: &mut [u8], journal: &mut Journal, r: &mut Bank, offset: u32) -> u64
    ensures { EndsAnyCache result m journal r (λ c. through_vector c offset) }
{
    let i = plus(r[VB], offset);
    let x = read_frame(m, journal, r, i);
    if EXCEPTION <= x {
        return RESETS;
    }
    let a = low32(x);
    vectored(r, a);
    x
}
