// Instructions of one parcel.
ghost use Rattle.std.specs.Prelude.{◌≡◌, ◌+◌, ◌<◌};
ghost use Rattle.isa.specs.Encode.{source_place, short_parcel, short_coded, encode_short};

use crate::text::one_parcel;
use crate::values::carries_value;
use encode_tables::fields::raw_field;
use encode_tables::rows::list_short;
use isa::{Encoded, FieldMode, ShortInstruction, ShortListed};

// A source field at its place in the parcel.
fn source_place(m: FieldMode, f: u32) -> u32
    requires { f < 1024 }
    ensures { result ≡ source_place m f }
{
    match m {
        FieldMode::Absent => 0,
        FieldMode::Imm5 | FieldMode::Uimm5 | FieldMode::Wai5 | FieldMode::Stk5 | FieldMode::Istk5 =>
            f << 5,
        FieldMode::Imm10 | FieldMode::Pcrel10 | FieldMode::Stk8 | FieldMode::Fill8 => f,
    }
}

fn parcel(base: u32, source: u32, destination: u32) -> u16
    requires { (base < 32768) × (source < 1024) × (destination < 1024) }
    ensures { result ≡ base + source + destination }
{
    (base + source + destination) as u16
}

// The parcel of a row with its two operands.
fn short_parcel(l: ShortListed, u: u32, v: u32) -> u16
    requires { l.base < 32768 }
    ensures { result ≡ short_parcel l u v }
{
    let source = source_place(l.source, raw_field(l.source, u));
    parcel(l.base, source, raw_field(l.destination, v))
}

fn short_coded(l: ShortListed, u: u32, v: u32) -> Encoded
    requires { l.base < 32768 }
    ensures { result ≡ short_coded l u v }
{
    let carried = carries_value(l.source, u) & carries_value(l.destination, v);
    carried.then_some(one_parcel(short_parcel(l, u, v)))
}

pub(crate) fn encode_short(i: ShortInstruction) -> Encoded
    ensures { result ≡ encode_short i }
{
    short_coded(list_short(i.row), i.source, i.destination)
}
