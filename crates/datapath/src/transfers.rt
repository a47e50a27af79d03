// Data accesses that leave the address of a fault in FAULT.
ghost use Rattle.datapath.specs.Data.{read_data, write_data};
ghost use Rattle.access_spec.specs.Clauses.{only_read};
ghost use Rattle.datapath.specs.Clauses.{Ends, Yields};

use crate::data::{read_data, write_data};
use crate::faults::set_fault;
use access_spec::Journal;
use machine::{Bank, Quads};
use memory::answers::EXCEPTION;
use word::Width;

// An operand as an unsigned number.
pub fn load(m: &mut [u8], journal: &mut Journal, q: &Quads, r: &mut Bank, w: Width, a: u32) -> u64
    ensures { Yields result m journal (only_read q) r (λ c. read_data c w a) }
{
    let x = read_data(m, journal, q, r, w, a);
    if EXCEPTION <= x {
        set_fault(r, x, a);
        x
    } else {
        x
    }
}

// The low bytes of v to an operand.
pub fn store(
    m: &mut [u8],
    journal: &mut Journal,
    q: &mut Quads,
    r: &mut Bank,
    w: Width,
    a: u32,
    v: u32,
) -> u64
    ensures { Ends result m journal q r (λ c. write_data c w a v) }
{
    let x = write_data(m, journal, q, r, w, a, v);
    if EXCEPTION <= x {
        set_fault(r, x, a);
        x
    } else {
        x
    }
}
