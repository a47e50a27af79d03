// Data accesses, to the stack cache or to memory; text, frames and checks, to memory. An answer is a number of 64 bits:
// a value below 2^32, or 2^32 and an exception. The registers stay: whoever asks sets FAULT.
ghost use Rattle.std.specs.Prelude.{◌≡◌, []};
ghost use Rattle.word.specs.declared.Width.TheVariants as width;
ghost use Rattle.memory.specs.Answers.{answer_of};
ghost use Rattle.access_spec.specs.Access.{response, fetch as fetches, read as reads, write as writes, probe as probes};
ghost use Rattle.access_spec.specs.Program.{interpret};
ghost use Rattle.access_spec.specs.Journal.{logging};
ghost use Rattle.access_spec.specs.Clauses.{only_read, Answers, AnswersReadOnly, Interprets};
ghost use Rattle.machine.specs.Status.{regime, kernel_regime};
ghost use Rattle.access.specs.Followed.{only_memory};
ghost use Rattle.datapath.specs.Parts.{replied};
ghost use Rattle.datapath.specs.Data.{read_cached, read_data, write_cached, write_data};
ghost use Rattle.datapath.specs.Code.{write_out};
ghost use Rattle.datapath.specs.Clauses.{entry_cpu, exit_cpu};

use access::accesses::aligned;
use access_spec::Journal;
use machine::places::STB;
use machine::status::{cached, is_little, is_user, is_virtual};
use machine::{Bank, Quads};
use memory::answers::{good, raised};
use memory::exceptions::ALIGNMENT_FAULT;
use memory::places::place;
use word::Width;

// An operand in the stack cache.
fn read_cached(q: &Quads, r: &Bank, w: Width, a: u32) -> u64
    ensures { response (replied (entry_cpu (only_read q) (only_read r)) a (answer_of result)) (only_memory [])
        ≡ interpret logging (read_cached (entry_cpu (only_read q) (only_read r)) w a) (only_memory []) }
{
    if aligned(w, a) {
        good(machine::cache::cache_read(w, q, place(is_little(r), w, a)))
    } else {
        raised(ALIGNMENT_FAULT)
    }
}

// An operand as an unsigned number.
pub fn read_data(m: &mut [u8], journal: &mut Journal, q: &Quads, r: &Bank, w: Width, a: u32) -> u64
    ensures { Interprets (replied (entry_cpu (only_read q) (only_read r)) a (answer_of result)) m journal (read_data (entry_cpu (only_read q) (only_read r)) w a) }
{
    if cached(r, a) {
        read_cached(q, r, w, a)
    } else {
        let p = place(is_little(r), w, a);
        access::accesses::read(m, journal, w, r[STB], is_user(r), is_virtual(r), p)
    }
}

fn write_cached(q: &mut Quads, r: &Bank, w: Width, a: u32, v: u32) -> u64
    ensures { response (write_out (exit_cpu q (only_read r)) a (answer_of result)) (only_memory [])
        ≡ interpret logging (write_cached (entry_cpu q (only_read r)) w a v) (only_memory []) }
{
    if aligned(w, a) {
        machine::cache::cache_write(w, q, place(is_little(r), w, a), v);
        good(0)
    } else {
        raised(ALIGNMENT_FAULT)
    }
}

// The low bytes of v to an operand.
pub fn write_data(
    m: &mut [u8],
    journal: &mut Journal,
    q: &mut Quads,
    r: &Bank,
    w: Width,
    a: u32,
    v: u32,
) -> u64
    ensures { Interprets (write_out (exit_cpu q (only_read r)) a (answer_of result)) m journal (write_data (entry_cpu q (only_read r)) w a v) }
{
    if cached(r, a) {
        write_cached(q, r, w, a, v)
    } else {
        let p = place(is_little(r), w, a);
        access::accesses::write(m, journal, w, r[STB], is_user(r), is_virtual(r), p, v)
    }
}

// A word of a frame or a vector, at kernel level.
pub fn read_frame(m: &mut [u8], journal: &mut Journal, r: &Bank, a: u32) -> u64
    ensures { Answers result m journal (reads (kernel_regime r.now) width.Word a) }
{
    access::accesses::read(m, journal, Width::Word, r[STB], false, is_virtual(r), a)
}

pub fn write_frame(m: &mut [u8], journal: &mut Journal, r: &Bank, a: u32, v: u32) -> u64
    ensures { Answers result m journal (writes (kernel_regime r.now) width.Word a v) }
{
    access::accesses::write(m, journal, Width::Word, r[STB], false, is_virtual(r), a, v)
}

// A parcel of text.
pub fn fetch_parcel(m: &mut [u8], journal: &mut Journal, r: &Bank, a: u32) -> u64
    ensures { Answers result m journal (fetches (regime r.now) a) }
{
    access::accesses::fetch(m, journal, r[STB], is_user(r), is_virtual(r), a)
}

// Whether stores at an address are valid at the current level.
pub fn check_store(m: &[u8], r: &Bank, a: u32) -> u64
    ensures { AnswersReadOnly result m.now [] (probes (regime r.now) a) }
{
    access::accesses::probe(m, r[STB], is_user(r), is_virtual(r), a)
}
