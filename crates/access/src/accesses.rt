// Accesses as a program asks for them, in a regime given by its numbers: the segment table base, whether at user level,
// whether translated. Untranslated ones stay clear of the walk.
ghost use Rattle.std.specs.Prelude.{◌≡◌, true, [], ◌+◌, ◌*◌, ◌/◌, ◌%◌};
ghost use Rattle.mmu.specs.declared.AccessKind.TheVariants as kind;
ghost use Rattle.mmu.specs.declared.Walk.TheVariants as walked;
ghost use Rattle.mmu.specs.Walk.{walk};
ghost use Rattle.access_spec.specs.Access.{fetch as fetches, read as reads, write as writes, probe as probes};
ghost use Rattle.access_spec.specs.Clauses.{Answers, AnswersReadOnly};
ghost use Rattle.access.specs.Followed.{regime_for, fits_width, Follows};

use crate::journal::{note, record_entry};
use access_spec::Journal;
use memory::answers::{good, raised};
use memory::exceptions::{ALIGNMENT_FAULT, BUS_FAULT, READ_FAULT, WRITE_FAULT};
use memory::loads::{load, load_half};
use memory::stores::store;
use mmu::translation::translate;
use mmu::{AccessKind, Walk};
use word::Width;
use word::fields::clear_low;

// Whether an address is aligned to a width.
pub fn aligned(w: Width, a: u32) -> bool
    ensures { result ≡ fits_width w a }
{
    match w {
        Width::Byte => true,
        Width::Half => a % 2 == 0,
        Width::Word => a % 4 == 0,
    }
}

fn read_walked(m: &mut [u8], journal: &mut Journal, w: Width, stb: u32, user: bool, a: u32) -> u64
    ensures { Follows result m journal (reads (regime_for stb user true) w a) (walk user stb kind.Read a m.old) }
{
    let x = translate(m, user, stb, AccessKind::Read, a);
    match x {
        Walk::Fault(c) => raised(c),
        Walk::Direct(pa) => load(m, w, pa),
        Walk::Paged(p, pa) => {
            record_entry(m, journal, AccessKind::Read, p);
            load(m, w, pa)
        }
    }
}

// A number of a width.
pub fn read(
    m: &mut [u8],
    journal: &mut Journal,
    w: Width,
    stb: u32,
    user: bool,
    translated: bool,
    a: u32,
) -> u64
    ensures { Answers result m journal (reads (regime_for stb user translated) w a) }
{
    if aligned(w, a) {
        if translated {
            read_walked(m, journal, w, stb, user, a)
        } else {
            load(m, w, a)
        }
    } else {
        raised(ALIGNMENT_FAULT)
    }
}

// A store into the word of pa, which is noted.
pub fn store_noted(m: &mut [u8], journal: &mut Journal, w: Width, pa: u32, v: u32) -> u64
    ensures { Follows result m journal (writes (regime_for 0 true true) w 0 v) (walked.Direct pa) }
{
    if pa as usize + word::widths::bytes(w) as usize <= m.len() {
        note(m, journal, clear_low(pa, 2));
        store(m, w, pa, v)
    } else {
        raised(BUS_FAULT)
    }
}

fn write_walked(
    m: &mut [u8],
    journal: &mut Journal,
    w: Width,
    stb: u32,
    user: bool,
    a: u32,
    v: u32,
) -> u64
    ensures { Follows result m journal (writes (regime_for stb user true) w a v) (walk user stb kind.Write a m.old) }
{
    let x = translate(m, user, stb, AccessKind::Write, a);
    match x {
        Walk::Fault(c) => raised(c),
        Walk::Direct(pa) => store_noted(m, journal, w, pa, v),
        Walk::Paged(p, pa) => {
            record_entry(m, journal, AccessKind::Write, p);
            store_noted(m, journal, w, pa, v)
        }
    }
}

// A store of the low bytes of v.
pub fn write(
    m: &mut [u8],
    journal: &mut Journal,
    w: Width,
    stb: u32,
    user: bool,
    translated: bool,
    a: u32,
    v: u32,
) -> u64
    ensures { Answers result m journal (writes (regime_for stb user translated) w a v) }
{
    if aligned(w, a) {
        if translated {
            write_walked(m, journal, w, stb, user, a, v)
        } else {
            store_noted(m, journal, w, a, v)
        }
    } else {
        raised(ALIGNMENT_FAULT)
    }
}

fn fetch_walked(m: &mut [u8], journal: &mut Journal, stb: u32, user: bool, a: u32) -> u64
    ensures { Follows result m journal (fetches (regime_for stb user true) a) (walk user stb kind.Fetch (a / 2 * 2) m.old) }
{
    let x = translate(m, user, stb, AccessKind::Fetch, clear_low(a, 1));
    match x {
        Walk::Fault(c) => raised(c),
        Walk::Direct(pa) => load_half(m, pa),
        Walk::Paged(p, pa) => {
            record_entry(m, journal, AccessKind::Fetch, p);
            load_half(m, pa)
        }
    }
}

// A parcel of text.
pub fn fetch(
    m: &mut [u8],
    journal: &mut Journal,
    stb: u32,
    user: bool,
    translated: bool,
    a: u32,
) -> u64
    ensures { Answers result m journal (fetches (regime_for stb user translated) a) }
{
    if translated {
        fetch_walked(m, journal, stb, user, a)
    } else {
        load_half(m, clear_low(a, 1))
    }
}

// Whether stores at a are valid: nothing is recorded, and a bad one is a read fault.
pub fn probe(m: &[u8], stb: u32, user: bool, translated: bool, a: u32) -> u64
    ensures { AnswersReadOnly result m.now [] (probes (regime_for stb user translated) a) }
{
    if translated {
        let x = translate(m, user, stb, AccessKind::Write, a);
        match x {
            Walk::Fault(c) => {
                if c == WRITE_FAULT {
                    raised(READ_FAULT)
                } else {
                    raised(c)
                }
            }
            Walk::Direct(pa) => good(0),
            Walk::Paged(p, pa) => good(0),
        }
    } else {
        good(0)
    }
}
