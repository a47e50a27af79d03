// The text of an instruction at PC: one to six parcels, each fetched and translated by itself.
ghost use Rattle.std.specs.Prelude.{◌≡◌, ◌%◌, [], ◌∷◌};
ghost use Rattle.memory.specs.Answers.{answer_of};
ghost use Rattle.isa.specs.Lengths.{following};
ghost use Rattle.isa.specs.Decode.{text_of, cpu_prefix};
ghost use Rattle.datapath.specs.Text.{fetch_parcels, fetch_after, fetch_prefixed, fetch_text};
ghost use Rattle.datapath.specs.Code.{joined_out, fetch_two, listed, words_fetched, fetch_stopped, operands_out, text_out};
ghost use Rattle.datapath.specs.Clauses.{Fetches};

use crate::data::fetch_parcel;
use access_spec::Journal;
use isa::{CPU_PREFIX, Text};
use machine::Bank;
use machine::places::PC;
use memory::answers::{EXCEPTION, low32};
use word::fields::{form_bits, high_half, joined, low_half};
use word::sums::plus;

// The two words after a first parcel, as far as it calls for them, and the exception that stopped the fetch with 2^32
// added; 0 is no exception.
#[derive(Clone, Copy)]
pub struct OperandParcels {
    pub fault: u64,
    pub source: u32,
    pub destination: u32,
}

// The parcels, or the exception.
#[derive(Clone, Copy)]
pub struct Fetched {
    pub fault: u64,
    pub text: Text,
}

// Two parcels as a word, the first one high.
fn fetch_two(m: &mut [u8], journal: &mut Journal, r: &Bank, a: u32) -> u64
    ensures { Fetches (λ c. joined_out c (answer_of result)) m journal r.now (λ c. fetch_two c a) }
{
    let x = fetch_parcel(m, journal, r, a);
    if EXCEPTION <= x {
        return x;
    }
    let y = fetch_parcel(m, journal, r, plus(a, 2));
    if EXCEPTION <= y {
        return y;
    }
    joined(parcel(x), parcel(y)) as u64
}

// The two words of a fetch that ended.
fn words_fetched(source: u32, destination: u32) -> OperandParcels
    ensures { result ≡ words_fetched source destination }
{
    OperandParcels {
        fault: 0,
        source,
        destination,
    }
}

// A fetch that was stopped.
fn fetch_stopped(fault: u64) -> OperandParcels
    ensures { result ≡ fetch_stopped fault }
{
    OperandParcels {
        fault,
        source: 0,
        destination: 0,
    }
}

// The parcels after p, which stand from a on.
fn fetch_operands(m: &mut [u8], journal: &mut Journal, r: &Bank, a: u32, p: u16) -> OperandParcels
    ensures { Fetches (λ c. operands_out c p result) m journal r.now (λ c. fetch_parcels c a (following p)) }
{
    let form = form_bits(p);
    if form < 2 {
        return words_fetched(0, 0);
    }
    let x = fetch_two(m, journal, r, a);
    if EXCEPTION <= x {
        return fetch_stopped(x);
    }
    if form < 3 {
        return words_fetched(low32(x), 0);
    }
    let y = fetch_two(m, journal, r, plus(a, 4));
    if EXCEPTION <= y {
        return fetch_stopped(y);
    }
    words_fetched(low32(x), low32(y))
}

// A parcel of an answer.
fn parcel(x: u64) -> u16
    ensures { result ≡ x % 65536 }
{
    (x & 0xFFFF) as u16
}

fn none() -> Text
    ensures { result ≡ text_of [] }
{
    Text {
        count: 0,
        p0: 0,
        p1: 0,
        p2: 0,
        p3: 0,
        p4: 0,
        p5: 0,
    }
}

// The text of a first parcel and its operands.
fn bare(p: u16, o: OperandParcels) -> Text
    ensures { result ≡ text_of (p ∷ listed p o.source o.destination) }
{
    let x = o.source;
    let y = o.destination;
    let form = form_bits(p);
    if form < 2 {
        return Text {
            count: 1,
            p0: p,
            p1: 0,
            p2: 0,
            p3: 0,
            p4: 0,
            p5: 0,
        };
    }
    if form < 3 {
        return Text {
            count: 3,
            p0: p,
            p1: high_half(x),
            p2: low_half(x),
            p3: 0,
            p4: 0,
            p5: 0,
        };
    }
    Text {
        count: 5,
        p0: p,
        p1: high_half(x),
        p2: low_half(x),
        p3: high_half(y),
        p4: low_half(y),
        p5: 0,
    }
}

// The same after a CPU prefix.
fn prefixed(p: u16, o: OperandParcels) -> Text
    ensures { result ≡ text_of (cpu_prefix ∷ p ∷ listed p o.source o.destination) }
{
    let x = o.source;
    let y = o.destination;
    let form = form_bits(p);
    if form < 2 {
        return Text {
            count: 2,
            p0: CPU_PREFIX,
            p1: p,
            p2: 0,
            p3: 0,
            p4: 0,
            p5: 0,
        };
    }
    if form < 3 {
        return Text {
            count: 4,
            p0: CPU_PREFIX,
            p1: p,
            p2: high_half(x),
            p3: low_half(x),
            p4: 0,
            p5: 0,
        };
    }
    Text {
        count: 6,
        p0: CPU_PREFIX,
        p1: p,
        p2: high_half(x),
        p3: low_half(x),
        p4: high_half(y),
        p5: low_half(y),
    }
}

// The instruction whose first parcel p stands at PC.
fn fetch_after(m: &mut [u8], journal: &mut Journal, r: &Bank, p: u16) -> Fetched
    ensures { Fetches (λ c. text_out c result) m journal r.now (λ c. fetch_after c p) }
{
    let o = fetch_operands(m, journal, r, plus(r[PC], 2), p);
    Fetched {
        fault: o.fault,
        text: bare(p, o),
    }
}

fn fetch_prefixed(m: &mut [u8], journal: &mut Journal, r: &Bank) -> Fetched
    ensures { Fetches (λ c. text_out c result) m journal r.now fetch_prefixed }
{
    let x = fetch_parcel(m, journal, r, plus(r[PC], 2));
    if EXCEPTION <= x {
        return Fetched {
            fault: x,
            text: none(),
        };
    }
    let p = parcel(x);
    let o = fetch_operands(m, journal, r, plus(r[PC], 4), p);
    Fetched {
        fault: o.fault,
        text: prefixed(p, o),
    }
}

// All parcels that the instruction at PC calls for.
pub fn fetch_text(m: &mut [u8], journal: &mut Journal, r: &Bank) -> Fetched
    ensures { Fetches (λ c. text_out c result) m journal r.now fetch_text }
{
    let x = fetch_parcel(m, journal, r, r[PC]);
    if EXCEPTION <= x {
        return Fetched {
            fault: x,
            text: none(),
        };
    }
    let p = parcel(x);
    if p == CPU_PREFIX {
        fetch_prefixed(m, journal, r)
    } else {
        fetch_after(m, journal, r, p)
    }
}
