// The numbers of the modes in three and five parcels.
ghost use Rattle.std.specs.Prelude.{◌≡◌};
ghost use Rattle.isa.specs.Encode.{mode_code, operand_code, has_mode, monadic_code};

use isa::{Mode, MonadicMode, Operand};

// The number of a mode.
pub fn mode_code(m: Mode) -> u32
    ensures { result ≡ mode_code m }
{
    match m {
        Mode::AbsoluteByte => 0x0,
        Mode::AbsoluteUbyte => 0x1,
        Mode::AbsoluteHalf => 0x2,
        Mode::AbsoluteUhalf => 0x3,
        Mode::StackByte => 0x4,
        Mode::StackUbyte => 0x5,
        Mode::StackHalf => 0x6,
        Mode::StackUhalf => 0x7,
        Mode::IndirectByte => 0x8,
        Mode::IndirectUbyte => 0x9,
        Mode::IndirectHalf => 0xA,
        Mode::IndirectUhalf => 0xB,
        Mode::AbsoluteWord => 0xC,
        Mode::StackWord => 0xD,
        Mode::IndirectWord => 0xE,
        Mode::Immediate => 0xF,
    }
}

// The number of an operand's mode; after a CPU prefix 0x7 is the register mode.
pub fn operand_code(o: Operand) -> u32
    ensures { result ≡ operand_code o }
{
    match o {
        Operand::General(m, _) => mode_code(m),
        Operand::Register(_) => 0x7,
    }
}

// Whether an operand's mode is there: with a prefix the word modes and the registers, else all but the registers.
pub fn has_mode(prefix: bool, o: Operand) -> bool
    ensures { result ≡ has_mode prefix o }
{
    match o {
        Operand::General(m, _) => !prefix | (0xC <= mode_code(m)),
        Operand::Register(_) => prefix,
    }
}

// The number of a monadic's mode.
pub fn monadic_code(m: MonadicMode) -> u32
    ensures { result ≡ monadic_code m }
{
    match m {
        MonadicMode::WordAbsolute | MonadicMode::FlowAbsoluteIndirect => 0xC,
        MonadicMode::WordStack | MonadicMode::FlowStackIndirect => 0xD,
        MonadicMode::WordIndirect | MonadicMode::FlowRelative => 0xE,
        MonadicMode::WordImmediate | MonadicMode::FlowAbsolute => 0xF,
    }
}
