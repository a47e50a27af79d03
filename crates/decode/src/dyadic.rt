// Dyadics of three and five parcels: 10 or 11, a six-bit opcode, two four-bit modes, two operand fields.
ghost use Rattle.std.specs.Prelude.{◌≡◌};
ghost use Rattle.isa.specs.Decode.{extended, operand_value, operand_found, mode_entry, dyadic_answer, both_found, decode_dyadic};
ghost use Rattle.decode.specs.Forms.{absolute_of};

use crate::fields::{last_bits, low, mode_bits, opcode_bits};
use decode_tables::legal::legal;
use decode_tables::modes::{find_general, find_prefixed};
use decode_tables::wide::find_dyadic;
use isa::lengths::with_length;
use isa::{
    Decoded, DyadicEntry, DyadicInstruction, Entry, Instruction, Mode, ModeEntry, Operand, Rule,
    UNIMPLEMENTED_VECTOR, Undecoded, Wide,
};
use word::widths::extend;

// 1.6.2: an absolute address of 16 bits is left as it is, since its extension depends on CONFIG and PC.
fn is_absolute(m: Mode) -> bool
    ensures { result ≡ absolute_of m }
{
    matches!(
        m,
        Mode::AbsoluteByte
            | Mode::AbsoluteUbyte
            | Mode::AbsoluteHalf
            | Mode::AbsoluteUhalf
            | Mode::AbsoluteWord
    )
}

fn extend_half(m: Mode, x: u32) -> u32
    ensures { result ≡ extended m x }
{
    if is_absolute(m) { x } else { extend(16, x) }
}

// What an operand field says in a mode.
pub fn value(wide: Wide, m: Mode, x: u32) -> u32
    ensures { result ≡ operand_value wide m x }
{
    match wide {
        Wide::Three => extend_half(m, x),
        Wide::Five => x,
    }
}

// 1.7: of a register's number only bits 3:0 count.
fn of_mode(wide: Wide, e: ModeEntry, x: u32) -> Option<Operand>
    ensures { result ≡ operand_found wide e x }
{
    match e {
        ModeEntry::General(m) => Some(Operand::General(m, value(wide, m, x))),
        ModeEntry::Register => Some(Operand::Register(low(x, 4))),
        ModeEntry::Unlisted => None,
    }
}

fn find_mode(prefix: bool, code: u32) -> ModeEntry
    ensures { result ≡ mode_entry prefix code }
{
    if prefix {
        find_prefixed(code)
    } else {
        find_general(code)
    }
}

fn find_operand(wide: Wide, prefix: bool, code: u32, x: u32) -> Option<Operand>
    ensures { result ≡ operand_found wide (mode_entry prefix code) x }
{
    of_mode(wide, find_mode(prefix, code), x)
}

// Of a row whose rule the operands do not meet no instruction; 1.11.4: nor of an unimplemented opcode with an illegal
// combination of modes.
fn of_entry(e: DyadicEntry, wide: Wide, prefix: bool, s: Operand, d: Operand) -> Decoded
    ensures { result ≡ dyadic_answer e wide prefix s d }
{
    match e {
        Entry::Row(row, rule) if legal(rule, s, d) => {
            with_length(Instruction::Dyadic(DyadicInstruction {
                row,
                wide,
                prefix,
                source: s,
                destination: d,
            }))
        }
        Entry::Unimplemented if legal(Rule::OneRegister, s, d) => {
            Err(Undecoded::Unimplemented(UNIMPLEMENTED_VECTOR))
        }
        _ => Err(Undecoded::Illegal),
    }
}

// Without an operand, as with a mode that is in no table, there is no instruction.
fn of_operands(
    e: DyadicEntry,
    wide: Wide,
    prefix: bool,
    s: Option<Operand>,
    d: Option<Operand>,
) -> Decoded
    ensures { result ≡ both_found e wide prefix s d }
{
    let source = s.ok_or(Undecoded::Illegal)?;
    let destination = d.ok_or(Undecoded::Illegal)?;
    of_entry(e, wide, prefix, source, destination)
}

// At either length: the opcode, the source's mode, the destination's; x and y are the operand fields.
pub(crate) fn decode_dyadic(wide: Wide, prefix: bool, p: u16, x: u32, y: u32) -> Decoded
    ensures { result ≡ decode_dyadic wide prefix p x y }
{
    let e = find_dyadic(opcode_bits(p as u32));
    let s = find_operand(wide, prefix, mode_bits(p as u32), x);
    let d = find_operand(wide, prefix, last_bits(p as u32), y);
    of_operands(e, wide, prefix, s, d)
}
