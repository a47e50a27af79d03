// Operand fields, cut by shifts and masks, and what they stand for (sections 1.6.1 and 3.3, Table 3-2).
ghost use Rattle.std.specs.Prelude.{◌≡◌, ◌%◌, ◌/◌, ◌^◌};
ghost use Rattle.isa.specs.Fields.{short_opcode, short_operands, source_field, destination_field, field_value};

use isa::FieldMode;
use isa::fields::field_value;
use word::fields::field;

// The low bits of x, as many as the low five bits of count say.
pub(crate) fn low(x: u32, count: u32) -> u32
    ensures { result ≡ x % 2 ^ (count % 32) }
{
    field(x, 0, count)
}

// Fields of one parcel, of it as a word: the opcode, five bits after the first.
pub fn short_opcode(p: u32) -> u32
    ensures { result ≡ short_opcode p }
{
    field(p, 10, 5)
}

// The ten bits after it.
pub fn short_operands(p: u32) -> u32
    ensures { result ≡ short_operands p }
{
    low(p, 10)
}

// Fields of the first parcel of three or five, at the same places in both; of the parcel as a word, which is made of it once.
// Bits 13:8: the opcode.
pub fn opcode_bits(p: u32) -> u32
    ensures { result ≡ p / 256 % 64 }
{
    field(p, 8, 6)
}

// Bits 7:4: the source's mode, or a monadic's.
pub fn mode_bits(p: u32) -> u32
    ensures { result ≡ p / 16 % 16 }
{
    field(p, 4, 4)
}

// Bits 3:0: the destination's mode, or a monadic's subcode.
pub fn last_bits(p: u32) -> u32
    ensures { result ≡ p % 16 }
{
    low(p, 4)
}

// The five bits before the low five.
fn middle(p: u16) -> u32
    ensures { result ≡ p / 32 % 32 }
{
    field(p as u32, 5, 5)
}

// Where the source field stands.
fn source_field(mode: FieldMode, p: u16) -> u32
    ensures { result ≡ source_field mode p }
{
    match mode {
        FieldMode::Absent => 0,
        // an arm for each: joined, here and in isa, they cost ten instructions a step
        FieldMode::Imm5 => middle(p),
        FieldMode::Uimm5 => middle(p),
        FieldMode::Wai5 => middle(p),
        FieldMode::Stk5 => middle(p),
        FieldMode::Istk5 => middle(p),
        FieldMode::Imm10 => short_operands(p as u32),
        FieldMode::Pcrel10 => short_operands(p as u32),
        FieldMode::Stk8 => low(p as u32, 8),
        FieldMode::Fill8 => low(p as u32, 8),
    }
}

pub fn source_value(mode: FieldMode, p: u16) -> u32
    ensures { result ≡ field_value mode (source_field mode p) }
{
    field_value(mode, source_field(mode, p))
}

pub fn destination_value(mode: FieldMode, p: u16) -> u32
    ensures { result ≡ field_value mode (destination_field p) }
{
    field_value(mode, low(p as u32, 5))
}
