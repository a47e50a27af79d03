// Data accesses that neither fault nor set a bit.
ghost use Rattle.std.specs.Prelude.{◌≡◌, ◌^◌, ◌<◌};
ghost use Rattle.memory.specs.Answers.{good};
ghost use Rattle.access_spec.specs.Access.{response, access, read as reads, write as writes};
ghost use Rattle.access_spec.specs.Clauses.{only_read, unchanged, IfElse};
ghost use Rattle.machine.specs.Status.{regime};
ghost use Rattle.datapath.specs.Data.{read_data, write_data};
ghost use Rattle.datapath.specs.Clauses.{entry_cpu};
ghost use Rattle.fast_dyadic.specs.Clauses.{Gives, GivesReadOnly};

use crate::NOT_TAKEN;
use access::NOWHERE;
use access::accesses::aligned;
use access::effect_free::{read_place, write_place};
use machine::cache::{cache_read, cache_write};
use machine::places::STB;
use machine::status::{cached, is_little, is_user, is_virtual};
use machine::{Bank, Quads};
use memory::answers::{EXCEPTION, good, low32};
use memory::loads::load;
use memory::places::place;
use memory::stores::store;
use word::Width;

// An operand in memory, at its place p; 2^32 or more where the access does not go.
fn memory_read(m: &[u8], r: &Bank, w: Width, p: u32) -> u64
    ensures { result < 2 ^ 32 → access (reads (regime r.now) w p) m.now ≡ response (good result) m.now }
{
    if !aligned(w, p) {
        return NOT_TAKEN;
    }
    let x = read_place(m, r[STB], is_user(r), is_virtual(r), p);
    if NOWHERE <= x {
        return x;
    }
    load(m, w, low32(x))
}

// An operand as an unsigned number; 2^32 or more where the access does not go.
pub fn fast_read(m: &[u8], q: &Quads, r: &Bank, w: Width, a: u32) -> u64
    ensures { result < 2 ^ 32 → GivesReadOnly result m.now (read_data (entry_cpu (only_read q) (only_read r)) w a) }
{
    let p = place(is_little(r), w, a);
    if !cached(r, a) {
        return memory_read(m, r, w, p);
    }
    if !aligned(w, a) {
        return NOT_TAKEN;
    }
    good(cache_read(w, q, p))
}

// The low bytes of v to memory, at the place p.
fn memory_store(m: &mut [u8], r: &Bank, w: Width, p: u32, v: u32) -> bool
    ensures { IfElse result (access (writes (regime r.now) w p v) m.old ≡ response (good 0) m.new) (unchanged m) }
{
    if !aligned(w, p) {
        return false;
    }
    let x = write_place(m, r[STB], is_user(r), is_virtual(r), p);
    if NOWHERE <= x {
        return false;
    }
    let y = store(m, w, low32(x), v);
    if EXCEPTION <= y {
        return false;
    }
    true
}

// The low bytes of v to an operand, if the access goes.
pub(crate) fn fast_store(m: &mut [u8], q: &mut Quads, r: &Bank, w: Width, a: u32, v: u32) -> bool
    ensures { IfElse result (Gives m q (only_read r) (λ c. write_data c w a v)) (unchanged m × unchanged q) }
{
    let p = place(is_little(r), w, a);
    if !cached(r, a) {
        return memory_store(m, r, w, p, v);
    }
    if !aligned(w, a) {
        return false;
    }
    cache_write(w, q, p, v);
    true
}
