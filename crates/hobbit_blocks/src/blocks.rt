// The block of an instruction.
ghost use Rattle.std.specs.Prelude.{◌≡◌, length};
ghost use Rattle.hobbit_blocks.specs.Numbering.{operand_mode, monadic_mode_place, block_of};

use crate::REGISTER_MODE;
use encode_tables::modes::mode_code;
use encode_tables::rows::{list_dyadic, list_monadic, list_short};
use isa::lengths::prefix_length;
use isa::{Instruction, MonadicMode, Operand};

// A register has the number after the sixteen modes.
fn operand_mode(o: Operand) -> u32
    ensures { result ≡ operand_mode o }
{
    match o {
        Operand::General(m, _) => mode_code(m),
        Operand::Register(_) => REGISTER_MODE,
    }
}

// The place of a monadic's mode in the order of declaration.
fn mode_place(mode: MonadicMode) -> u32
    ensures { result ≡ monadic_mode_place mode }
{
    match mode {
        MonadicMode::WordAbsolute => 0,
        MonadicMode::WordStack => 1,
        MonadicMode::WordIndirect => 2,
        MonadicMode::WordImmediate => 3,
        MonadicMode::FlowAbsoluteIndirect => 4,
        MonadicMode::FlowStackIndirect => 5,
        MonadicMode::FlowRelative => 6,
        MonadicMode::FlowAbsolute => 7,
    }
}

// Of an instruction that is n parcels long.
pub fn block_of(i: Instruction, n: u32) -> [u32; 8]
    ensures { (result ≡ block_of i n) × (length result ≡ 8) }
{
    match i {
        Instruction::Short(o) => {
            [
                1,
                list_short(o.row).base,
                n,
                0,
                0,
                o.source,
                0,
                o.destination,
            ]
        }
        Instruction::Dyadic(o) => {
            [
                2,
                list_dyadic(o.row).opcode,
                n,
                prefix_length(o.prefix),
                operand_mode(o.source),
                o.source.raw(),
                operand_mode(o.destination),
                o.destination.raw(),
            ]
        }
        Instruction::Monadic(o) => {
            [
                3,
                list_monadic(o.row).subcode,
                n,
                prefix_length(o.prefix),
                mode_place(o.mode),
                o.value,
                0,
                0,
            ]
        }
    }
}
