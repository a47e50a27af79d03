// One parcel: a 0 bit, a five-bit opcode, ten operand bits.
ghost use Rattle.std.specs.Prelude.{◌≡◌};
ghost use Rattle.isa.specs.Decode.{short_entry, short_instruction, short_answer, decode_short};

use crate::fields::{destination_value, short_opcode, short_operands, source_value};
use decode_tables::parcel::{find_niladic, find_short, find_stack};
use isa::lengths::with_length;
use isa::{
    Decoded, FieldMode, Instruction, NILADIC_TRAP_VECTOR, ShortEntry, ShortInstruction, ShortRow,
    UNIMPLEMENTED_VECTOR, Undecoded,
};
use word::fields::field;

// Opcode 2 has its subcode in bits 9:8, opcode 0xB in bits 9:0.
pub fn find_entry(e: ShortEntry, p: u16) -> ShortEntry
    ensures { result ≡ short_entry e p }
{
    match e {
        ShortEntry::Stack => find_stack(field(p as u32, 8, 2)),
        ShortEntry::Niladic => find_niladic(short_operands(p as u32)),
        found => found,
    }
}

fn instruction(r: ShortRow, s: FieldMode, d: FieldMode, p: u16) -> ShortInstruction
    ensures { result ≡ short_instruction r s d p }
{
    ShortInstruction {
        row: r,
        source: source_value(s, p),
        destination: destination_value(d, p),
    }
}

// A prefix is no instruction by itself.
fn answer(e: ShortEntry, p: u16) -> Decoded
    ensures { result ≡ short_answer e p }
{
    match e {
        ShortEntry::Row(r, s, d) => with_length(Instruction::Short(instruction(r, s, d, p))),
        ShortEntry::Unimplemented => Err(Undecoded::Unimplemented(UNIMPLEMENTED_VECTOR)),
        ShortEntry::Trap => Err(Undecoded::Unimplemented(NILADIC_TRAP_VECTOR)),
        ShortEntry::Stack | ShortEntry::Niladic | ShortEntry::Prefix | ShortEntry::Unlisted => {
            Err(Undecoded::Illegal)
        }
    }
}

pub(crate) fn decode_short(p: u16) -> Decoded
    ensures { result ≡ decode_short p }
{
    answer(find_entry(find_short(short_opcode(p as u32)), p), p)
}
