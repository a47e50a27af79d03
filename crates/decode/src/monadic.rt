// Monadics of three parcels: opcode 0, the mode in bits 7:4, the subcode in 3:0, an operand of 32 bits.
ghost use Rattle.std.specs.Prelude.{◌≡◌};
ghost use Rattle.isa.specs.Tables.{monadic_mode_of};
ghost use Rattle.isa.specs.Decode.{monadic_found, monadic_answer, decode_monadic};

use crate::fields::{last_bits, mode_bits};
use decode_tables::legal::monadic_legal;
use decode_tables::modes::find_monadic_mode;
use decode_tables::wide::find_monadic;
use isa::lengths::with_length;
use isa::{
    Decoded, Entry, Instruction, MonadicEntry, MonadicInstruction, MonadicRow, MonadicRule,
    UNIMPLEMENTED_VECTOR, Undecoded,
};

// A row with its operand, in a mode that its rule has and with a value that it allows.
fn of_row(row: MonadicRow, rule: MonadicRule, prefix: bool, code: u32, value: u32) -> Decoded
    ensures { result ≡ monadic_found row rule prefix (monadic_mode_of rule code) value }
{
    match find_monadic_mode(rule, code) {
        Some(mode) if monadic_legal(rule, mode, value) => {
            with_length(Instruction::Monadic(MonadicInstruction {
                row,
                prefix,
                mode,
                value,
            }))
        }
        _ => Err(Undecoded::Illegal),
    }
}

// 1.11.4: an unimplemented subcode is illegal with a mode that is no word's.
fn of_entry(e: MonadicEntry, prefix: bool, code: u32, value: u32) -> Decoded
    ensures { result ≡ monadic_answer e prefix code value }
{
    match e {
        Entry::Row(row, rule) => of_row(row, rule, prefix, code, value),
        Entry::Unimplemented if 0xC <= code => Err(Undecoded::Unimplemented(UNIMPLEMENTED_VECTOR)),
        Entry::Unimplemented | Entry::Unlisted => Err(Undecoded::Illegal),
    }
}

pub(crate) fn decode_monadic(prefix: bool, p: u16, value: u32) -> Decoded
    ensures { result ≡ decode_monadic prefix p value }
{
    of_entry(
        find_monadic(last_bits(p as u32)),
        prefix,
        mode_bits(p as u32),
        value,
    )
}
