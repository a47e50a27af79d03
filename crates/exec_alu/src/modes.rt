// Operands by their modes: width, sign, kind, and where an absolute address lies (1.2, 1.6.2, Table 1-21).
ghost use Rattle.std.specs.Prelude.{◌≡◌};
ghost use Rattle.exec_spec.specs.Operands.{width_of, is_signed, mode_kind, expanded, absolute_on};
ghost use Rattle.exec_alu.specs.Modes.{kind_from};

use crate::OperandKind;
use isa::{Mode, Wide};
use machine::bits::PC_EXTENSION;
use word::Width;
use word::fields::{bit, clear_low};
use word::sums::plus;
use word::widths::sign_extend;

// The width of a mode's operand.
pub fn width_of(m: Mode) -> Width
    ensures { result ≡ width_of m }
{
    match m {
        Mode::AbsoluteByte => Width::Byte,
        Mode::AbsoluteUbyte => Width::Byte,
        Mode::AbsoluteHalf => Width::Half,
        Mode::AbsoluteUhalf => Width::Half,
        Mode::StackByte => Width::Byte,
        Mode::StackUbyte => Width::Byte,
        Mode::StackHalf => Width::Half,
        Mode::StackUhalf => Width::Half,
        Mode::IndirectByte => Width::Byte,
        Mode::IndirectUbyte => Width::Byte,
        Mode::IndirectHalf => Width::Half,
        Mode::IndirectUhalf => Width::Half,
        Mode::AbsoluteWord => Width::Word,
        Mode::StackWord => Width::Word,
        Mode::IndirectWord => Width::Word,
        Mode::Immediate => Width::Word,
    }
}

// Whether a mode's operand is sign extended.
pub fn is_signed(m: Mode) -> bool
    ensures { result ≡ is_signed m }
{
    match m {
        Mode::AbsoluteByte => true,
        Mode::AbsoluteUbyte => false,
        Mode::AbsoluteHalf => true,
        Mode::AbsoluteUhalf => false,
        Mode::StackByte => true,
        Mode::StackUbyte => false,
        Mode::StackHalf => true,
        Mode::StackUhalf => false,
        Mode::IndirectByte => true,
        Mode::IndirectUbyte => false,
        Mode::IndirectHalf => true,
        Mode::IndirectUhalf => false,
        Mode::AbsoluteWord => false,
        Mode::StackWord => false,
        Mode::IndirectWord => false,
        Mode::Immediate => false,
    }
}

// Where a mode's operand is.
pub fn mode_kind(m: Mode) -> OperandKind
    ensures { kind_from result ≡ mode_kind m }
{
    match m {
        Mode::AbsoluteByte => OperandKind::Absolute,
        Mode::AbsoluteUbyte => OperandKind::Absolute,
        Mode::AbsoluteHalf => OperandKind::Absolute,
        Mode::AbsoluteUhalf => OperandKind::Absolute,
        Mode::StackByte => OperandKind::Offset,
        Mode::StackUbyte => OperandKind::Offset,
        Mode::StackHalf => OperandKind::Offset,
        Mode::StackUhalf => OperandKind::Offset,
        Mode::IndirectByte => OperandKind::Indirect,
        Mode::IndirectUbyte => OperandKind::Indirect,
        Mode::IndirectHalf => OperandKind::Indirect,
        Mode::IndirectUhalf => OperandKind::Indirect,
        Mode::AbsoluteWord => OperandKind::Absolute,
        Mode::StackWord => OperandKind::Offset,
        Mode::IndirectWord => OperandKind::Indirect,
        Mode::Immediate => OperandKind::Constant,
    }
}

// An operand of a mode at 32 bits.
pub fn expand(m: Mode, x: u32) -> u32
    ensures { result ≡ expanded m x }
{
    if is_signed(m) {
        sign_extend(width_of(m), x)
    } else {
        x
    }
}

// An absolute address, with CONFIG and PC given as numbers.
pub fn absolute(config: u32, pc: u32, wide: Wide, v: u32) -> u32
    ensures { result ≡ absolute_on config pc wide v }
{
    match wide {
        Wide::Three => {
            if bit(config, PC_EXTENSION) {
                plus(clear_low(pc, 29), v)
            } else {
                v
            }
        }
        Wide::Five => v,
    }
}
