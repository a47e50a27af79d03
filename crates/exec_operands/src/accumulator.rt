// The accumulator, written.
ghost use Rattle.datapath.specs.Clauses.{Ends};
ghost use Rattle.exec_spec.specs.Operands.{write_accumulator};

use access_spec::Journal;
use datapath::transfers::store;
use exec_registers::flow::stack_address;
use machine::{Bank, Quads};
use word::Width;

pub fn write_accumulator(
    m: &mut [u8],
    journal: &mut Journal,
    q: &mut Quads,
    r: &mut Bank,
    v: u32,
) -> u64
    ensures { Ends result m journal q r (λ c. write_accumulator c v) }
{
    let a = stack_address(r, 4);
    store(m, journal, q, r, Width::Word, a, v)
}
