// CRET. A fault of the frame resets: its answer is 2^32.
ghost use Rattle.datapath.specs.Clauses.{Ends};
ghost use Rattle.exec_spec.specs.EventFrames.{cret_fill, cret as cret_of, cret_caught, cret_from, cret_after};

use crate::catches::catch_to;
use access_spec::Journal;
use datapath::RESETS;
use datapath::data::read_frame;
use exec_registers::event_frames::returned;
use machine::bits::{SP_CURRENT, STACK_CACHE, VIRTUAL};
use machine::places::{CONFIG, ISP, MSP, SP, STB};
use machine::registers::unreserved;
use machine::status::is_user;
use machine::{Bank, Quads};
use memory::answers::{EXCEPTION, low32};
use word::fields::bit;
use word::sums::plus;

// The cache filled to MSP t, in the regime that the PSW p restores, and MSP left there.
fn cret_caught(
    m: &mut [u8],
    journal: &mut Journal,
    q: &mut Quads,
    r: &mut Bank,
    t: u32,
    p: u32,
) -> u64
    ensures { Ends result m journal q r (λ c. cret_caught c t p) }
{
    let stb = r[STB];
    let user = is_user(r);
    let translated = bit(p, VIRTUAL);
    let x = catch_to(m, journal, q, r, stb, user, translated, t);
    if EXCEPTION <= x {
        return x;
    }
    r[MSP] = t;
    x
}

// The cache after the frame's words w of MSP and p of PSW.
fn cret_fill(
    m: &mut [u8],
    journal: &mut Journal,
    q: &mut Quads,
    r: &mut Bank,
    w: u32,
    p: u32,
) -> u64
    ensures { Ends result m journal q r (λ c. cret_fill c w p) }
{
    let t = unreserved(4, w);
    if bit(p, SP_CURRENT) {
        if bit(r[CONFIG], STACK_CACHE) {
            cret_caught(m, journal, q, r, t, p)
        } else {
            0
        }
    } else {
        r[MSP] = t;
        0
    }
}

// All but the frame's words: s of SP, w of MSP, a of PC, p of PSW.
fn cret_from(
    m: &mut [u8],
    journal: &mut Journal,
    q: &mut Quads,
    r: &mut Bank,
    s: u32,
    w: u32,
    a: u32,
    p: u32,
) -> u64
    ensures { Ends result m journal q r (λ c. cret_from c s w a p) }
{
    let k = unreserved(8, s);
    r[SP] = k;
    r[MSP] = k;
    let x = cret_fill(m, journal, q, r, w, p);
    if EXCEPTION <= x {
        return x;
    }
    returned(r, a, p);
    x
}

// After the frame's words of SP and MSP.
fn cret_after(
    m: &mut [u8],
    journal: &mut Journal,
    q: &mut Quads,
    r: &mut Bank,
    s: u32,
    w: u32,
) -> u64
    ensures { Ends result m journal q r (λ c. cret_after c s w) }
{
    let i = plus(r[ISP], 8);
    let x = read_frame(m, journal, r, i);
    if EXCEPTION <= x {
        return RESETS;
    }
    let j = plus(r[ISP], 12);
    let y = read_frame(m, journal, r, j);
    if EXCEPTION <= y {
        return RESETS;
    }
    let a = low32(x);
    let p = low32(y);
    cret_from(m, journal, q, r, s, w, a, p)
}

// At kernel level; at user level it is exception 5.
pub fn cret(m: &mut [u8], journal: &mut Journal, q: &mut Quads, r: &mut Bank) -> u64
    ensures { Ends result m journal q r cret_of }
{
    let i = r[ISP];
    let x = read_frame(m, journal, r, i);
    if EXCEPTION <= x {
        return RESETS;
    }
    let j = plus(r[ISP], 4);
    let y = read_frame(m, journal, r, j);
    if EXCEPTION <= y {
        return RESETS;
    }
    let s = low32(x);
    let w = low32(y);
    cret_after(m, journal, q, r, s, w)
}
