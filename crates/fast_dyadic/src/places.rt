// Operands that are no registers, where no access to them faults or sets a bit.
ghost use Rattle.std.specs.Prelude.{◌^◌, ◌<◌};
ghost use Rattle.isa.specs.declared.Operand.TheVariants as operand;
ghost use Rattle.access_spec.specs.Clauses.{only_read, unchanged, IfElse};
ghost use Rattle.datapath.specs.Clauses.{entry_cpu};
ghost use Rattle.exec_spec.specs.Operands.{mode_kind, locate, read_place, write_place};
ghost use Rattle.exec_operands.specs.Code.{general_at, place_at};
ghost use Rattle.fast_dyadic.specs.Clauses.{Gives, GivesReadOnly};

use crate::NOT_TAKEN;
use crate::accesses::{fast_read, fast_store};
use exec_alu::OperandKind;
use exec_alu::modes::{absolute, expand, mode_kind, width_of};
use exec_operands::places::is_constant;
use exec_registers::flow::stack_address;
use isa::{Mode, Wide};
use machine::places::{CONFIG, PC};
use machine::{Bank, Quads};
use memory::answers::{good, low32};
use word::Width;

// The address of an operand; 2^32 or more where its indirection word is not read.
pub(crate) fn fast_address(m: &[u8], q: &Quads, r: &Bank, wide: Wide, mode: Mode, v: u32) -> u64
    ensures { result < 2 ^ 32 → GivesReadOnly (place_at (operand.General mode v) result) m.now (locate (entry_cpu (only_read q) (only_read r)) wide (operand.General mode v)) }
{
    let k = mode_kind(mode);
    match k {
        OperandKind::Absolute => good(absolute(r[CONFIG], r[PC], wide, v)),
        OperandKind::Offset => good(stack_address(r, v)),
        OperandKind::Indirect => {
            let a = stack_address(r, v);
            fast_read(m, q, r, Width::Word, a)
        }
        OperandKind::Constant => good(0),
    }
}

// An operand found at a, at 32 bits; 2^32 or more where it is not read.
pub(crate) fn fast_value(m: &[u8], q: &Quads, r: &Bank, mode: Mode, v: u32, a: u32) -> u64
    ensures { result < 2 ^ 32 → GivesReadOnly result m.now (read_place (entry_cpu (only_read q) (only_read r)) (general_at (mode_kind mode) mode v a)) }
{
    if is_constant(mode) {
        return good(v);
    }
    let x = fast_read(m, q, r, width_of(mode), a);
    if NOT_TAKEN <= x {
        return x;
    }
    good(expand(mode, low32(x)))
}

// A word to an operand found at a, if it goes.
pub(crate) fn fast_put(
    m: &mut [u8],
    q: &mut Quads,
    r: &Bank,
    mode: Mode,
    held: u32,
    a: u32,
    v: u32,
) -> bool
    ensures { IfElse result (Gives m q (only_read r) (λ c. write_place c (general_at (mode_kind mode) mode held a) v)) (unchanged m × unchanged q) }
{
    if is_constant(mode) {
        return true;
    }
    fast_store(m, q, r, width_of(mode), a, v)
}
