// Instructions of three and five parcels with two operands.
ghost use Rattle.std.specs.Prelude.{◌≡◌, ◌+◌, ◌*◌, ◌<◌};
ghost use Rattle.isa.specs.Encode.{dyadic_text, dyadic_has_code, encode_dyadic};
ghost use Rattle.encode.specs.Parts.{dyadic_parcels};

use crate::operands::{admits_both, fits_form};
use crate::text::{five_parcels, three_parcels, with_prefix};
use encode_tables::modes::{has_mode, operand_code};
use encode_tables::rows::list_dyadic;
use isa::{DyadicInstruction, Encoded, Text, Wide};
use word::fields::{high_half, low_half};

// The first parcel of a form: its top two bits, the opcode and the two modes.
fn first_parcel(form: u32, o: u32, s: u32, d: u32) -> u16
    requires { (form < 0xC001) × (o < 64) × (s < 16) × (d < 16) }
    ensures { result ≡ form + o * 256 + s * 16 + d }
{
    (form + (o << 8) + (s << 4) + d) as u16
}

fn dyadic_text(w: Wide, o: u32, s: u32, d: u32, x: u32, y: u32) -> Text
    requires { (o < 64) × (s < 16) × (d < 16) }
    ensures { (result ≡ dyadic_text w o s d x y) × (result.count < 6) }
{
    match w {
        Wide::Three => three_parcels(first_parcel(0x8000, o, s, d), low_half(x), low_half(y)),
        Wide::Five => five_parcels(
            first_parcel(0xC000, o, s, d),
            high_half(x),
            low_half(x),
            high_half(y),
            low_half(y),
        ),
    }
}

// Whether there is a code for the instruction.
fn dyadic_has_code(i: DyadicInstruction) -> bool
    ensures { result ≡ dyadic_has_code i }
{
    has_mode(i.prefix, i.source)
        & has_mode(i.prefix, i.destination)
        & fits_form(i.wide, i.source)
        & fits_form(i.wide, i.destination)
        & admits_both(list_dyadic(i.row).operands, i.source, i.destination)
}

// The parcels of an instruction that has a code.
fn dyadic_parcels(i: DyadicInstruction) -> Text
    ensures { result ≡ dyadic_parcels i }
{
    let text = dyadic_text(
        i.wide,
        list_dyadic(i.row).opcode,
        operand_code(i.source),
        operand_code(i.destination),
        i.source.raw(),
        i.destination.raw(),
    );
    with_prefix(i.prefix, text)
}

pub(crate) fn encode_dyadic(i: DyadicInstruction) -> Encoded
    ensures { result ≡ encode_dyadic i }
{
    dyadic_has_code(i).then_some(dyadic_parcels(i))
}
