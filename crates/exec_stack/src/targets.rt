// Where ENTER and CATCH go, and the checks that stores are valid there. A fault leaves its address.
ghost use Rattle.access_spec.specs.Access.{probe as probes};
ghost use Rattle.access_spec.specs.Clauses.{only_read};
ghost use Rattle.access.specs.Followed.{regime_for};
ghost use Rattle.datapath.specs.Parts.{request};
ghost use Rattle.datapath.specs.Data.{check_store};
ghost use Rattle.datapath.specs.Clauses.{Yields, YieldsReadOnly};
ghost use Rattle.exec_spec.specs.Stack.{stack_target, check_msp};

use access_spec::Journal;
use datapath::faults::set_fault;
use datapath::transfers::load;
use exec_registers::flow::stack_address;
use isa::MonadicMode;
use machine::places::STB;
use machine::status::{is_user, is_virtual};
use machine::{Bank, Quads};
use memory::answers::{EXCEPTION, good};
use word::Width;

// The target of ENTER or CATCH.
pub fn stack_target(
    m: &mut [u8],
    journal: &mut Journal,
    q: &Quads,
    r: &mut Bank,
    mode: MonadicMode,
    v: u32,
) -> u64
    ensures { Yields result m journal (only_read q) r (λ c. stack_target c mode v) }
{
    match mode {
        MonadicMode::WordAbsolute => load(m, journal, q, r, Width::Word, v),
        MonadicMode::WordStack => good(stack_address(r, v)),
        MonadicMode::WordIndirect => load(m, journal, q, r, Width::Word, stack_address(r, v)),
        MonadicMode::WordImmediate => good(v),
        MonadicMode::FlowAbsoluteIndirect => good(v),
        MonadicMode::FlowStackIndirect => good(v),
        MonadicMode::FlowRelative => good(v),
        MonadicMode::FlowAbsolute => good(v),
    }
}

// Whether stores at a are valid, in a regime given by its numbers.
fn check(m: &[u8], r: &mut Bank, stb: u32, user: bool, translated: bool, a: u32) -> u64
    ensures { YieldsReadOnly result m.now r (λ c. request c (probes (regime_for stb user translated) a) a) }
{
    let x = access::accesses::probe(m, stb, user, translated, a);
    if EXCEPTION <= x {
        set_fault(r, x, a);
        return x;
    }
    x
}

// The same at the current level.
pub fn check_target(m: &[u8], r: &mut Bank, a: u32) -> u64
    ensures { YieldsReadOnly result m.now r (λ c. check_store c a) }
{
    let stb = r[STB];
    let user = is_user(r);
    let translated = is_virtual(r);
    check(m, r, stb, user, translated, a)
}

// MSP is checked if it is updated.
pub fn check_msp(
    m: &[u8],
    r: &mut Bank,
    stb: u32,
    user: bool,
    translated: bool,
    old: u32,
    new: u32,
) -> u64
    ensures { YieldsReadOnly result m.now r (λ c. check_msp c (regime_for stb user translated) old new) }
{
    if new == old {
        good(0)
    } else {
        check(m, r, stb, user, translated, new)
    }
}
