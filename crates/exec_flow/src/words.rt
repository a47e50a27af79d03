// The operands of word modes, and the current stack pointer. A fault leaves its address.
ghost use Rattle.std.specs.Prelude.{◌≡◌};
ghost use Rattle.access_spec.specs.Clauses.{only_read};
ghost use Rattle.machine.specs.Registers.{word};
ghost use Rattle.machine.specs.Status.{csp};
ghost use Rattle.datapath.specs.Clauses.{Yields};
ghost use Rattle.exec_spec.specs.Control.{read_word32, read_through};

use access_spec::Journal;
use datapath::transfers::load;
use exec_registers::flow::stack_address;
use isa::MonadicMode;
use machine::places::{ISP, PC, SP};
use machine::status::sp_current;
use machine::{Bank, Quads};
use memory::answers::{EXCEPTION, good, low32};
use word::Width;
use word::sums::plus;

// The word that the word at a points to.
pub fn read_through(m: &mut [u8], journal: &mut Journal, q: &Quads, r: &mut Bank, a: u32) -> u64
    ensures { Yields result m journal (only_read q) r (λ c. read_through c a) }
{
    let x = load(m, journal, q, r, Width::Word, a);
    if EXCEPTION <= x {
        return x;
    }
    load(m, journal, q, r, Width::Word, low32(x))
}

// The operand of a word mode, and where a flow mode goes.
pub fn read_word32(
    m: &mut [u8],
    journal: &mut Journal,
    q: &Quads,
    r: &mut Bank,
    mode: MonadicMode,
    v: u32,
) -> u64
    ensures { Yields result m journal (only_read q) r (λ c. read_word32 c mode v) }
{
    match mode {
        MonadicMode::WordAbsolute => load(m, journal, q, r, Width::Word, v),
        MonadicMode::WordStack => load(m, journal, q, r, Width::Word, stack_address(r, v)),
        MonadicMode::WordIndirect => read_through(m, journal, q, r, stack_address(r, v)),
        MonadicMode::WordImmediate => good(v),
        MonadicMode::FlowAbsoluteIndirect => load(m, journal, q, r, Width::Word, v),
        MonadicMode::FlowStackIndirect => load(m, journal, q, r, Width::Word, stack_address(r, v)),
        MonadicMode::FlowRelative => good(plus(r[PC], v)),
        MonadicMode::FlowAbsolute => good(v),
    }
}

// The current stack pointer.
pub fn stack_pointer(r: &Bank) -> u32
    ensures { result ≡ word r.now (csp r.now) }
{
    if sp_current(r) { r[SP] } else { r[ISP] }
}
