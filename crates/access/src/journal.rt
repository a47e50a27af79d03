// The journal of a step, in one lent array: the number of entries, then each as its place times 2^32 and the word of before.
ghost use Rattle.std.specs.Prelude.{◌≡◌, min, set};
ghost use Rattle.access_spec.specs.Journal.{journaled, count, room, note as note_of, entry_note, restored, undo as undo_of};
ghost use Rattle.access_spec.specs.Clauses.{exit_world};
ghost use Rattle.mmu.specs.Walk.{recorded};

use access_spec::{JOURNAL_ROOM, Journal};
use memory::answers::EXCEPTION;
use memory::loads::load_word;
use mmu::AccessKind;

const ROOM: u64 = JOURNAL_ROOM as u64;

// An entry is its place times this, and the word of before.
const PLACE: u64 = 0x1_0000_0000;

// The word at a, as it is.
pub fn note(m: &[u8], journal: &mut Journal, a: u32)
    ensures { journal.new ≡ note_of a m.now journal.old }
{
    let n = journal[0];
    if n < ROOM {
        let w = load_word(m, a);
        if w < EXCEPTION {
            let k = n as usize;
            journal[k + 1] = a as u64 * PLACE + w;
            journal[0] = n + 1;
        }
    }
}

// The recording bits of the page entry at p, noted if one changes.
pub fn record_entry(m: &mut [u8], journal: &mut Journal, k: AccessKind, p: u32)
    ensures { exit_world m journal ≡ journaled (recorded k p m.old) (entry_note k p m.old journal.old) }
{
    if mmu::recording::is_fresh(m, k, p) {
        note(m, journal, p);
        mmu::recording::record_access(m, k, p);
    }
}

// A journal without entries.
pub fn begin(journal: &mut Journal)
    ensures { journal.new ≡ set journal.old 0 0 }
{
    journal[0] = 0;
}

// A byte put back; one outside memory is not.
fn put_byte(m: &mut [u8], i: usize, b: u8)
    ensures { m.new ≡ set m.old i b }
{
    if i < m.len() {
        m[i] = b;
    }
}

// An entry's word put back, byte by byte: with one test for the word the compiler keeps less of a run in registers.
fn restore(m: &mut [u8], e: u64)
    ensures { m.new ≡ restored m.old e }
{
    let a = (e / PLACE) as usize;
    let w = (e % PLACE) as u32;
    put_byte(m, a, (w / 256 / 256 / 256 % 256) as u8);
    put_byte(m, a + 1, (w / 256 / 256 % 256) as u8);
    put_byte(m, a + 2, (w / 256 % 256) as u8);
    put_byte(m, a + 3, (w % 256) as u8);
}

// The number of entries.
fn entries(journal: &Journal) -> usize
    ensures { result ≡ min (count journal.now) room }
{
    let n = journal[0];
    if n < ROOM { n as usize } else { JOURNAL_ROOM }
}

// All entries put back, the last one first.
pub fn undo(m: &mut [u8], journal: &Journal)
    ensures { m.new ≡ undo_of journal.now m.old }
{
    let mut i = entries(journal);
    while 0 < i {
        restore(m, journal[i]);
        i = i - 1;
    }
}
