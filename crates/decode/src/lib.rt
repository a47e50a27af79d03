#![tactic(auto)]
// The decoder: what one to six parcels say (sections 1.6 and 1.11.4), an instruction with its length. Here: a prefix and the form,
// by the first parcel or the one after a prefix; parcels by value, or lent.
pub mod dyadic;
pub mod fields;
mod monadic;
pub mod short;
pub mod wide;

ghost use Rattle.std.specs.Prelude.{◌≡◌, get_or};
ghost use Rattle.isa.specs.Answers.{decoded_numbers};
ghost use Rattle.isa.specs.Decode.{decode_of, text_of};
ghost use Rattle.decode.specs.Forms.{rest_of, short_rest, decode_rest};

use crate::short::decode_short;
use crate::wide::decode_wide;
use isa::{CPU_PREFIX, Decoded, Text, Undecoded};
use word::fields::form_bits;

fn without_prefix(prefix: bool, t: Text) -> Text
    ensures { result ≡ rest_of prefix t }
{
    if prefix {
        Text {
            count: t.count.saturating_sub(1),
            p0: t.p1,
            p1: t.p2,
            p2: t.p3,
            p3: t.p4,
            p4: t.p5,
            p5: 0,
        }
    } else {
        t
    }
}

// After a prefix one parcel, or another prefix, is illegal.
fn decode_parcel(prefix: bool, p: u16) -> Decoded
    ensures { result ≡ short_rest prefix p }
{
    if prefix {
        Err(Undecoded::Illegal)
    } else {
        decode_short(p)
    }
}

fn decode_rest(prefix: bool, t: Text) -> Decoded
    ensures { result ≡ decode_rest prefix t }
{
    if t.count < 1 {
        return Err(Undecoded::Truncated);
    }
    if form_bits(t.p0) < 2 {
        decode_parcel(prefix, t.p0)
    } else {
        decode_wide(prefix, t.count - 1, t.p0, t.p1, t.p2, t.p3, t.p4)
    }
}

// Parcels by value, as a step has fetched them.
pub fn decode_text(t: Text) -> Decoded
    ensures { decoded_numbers result ≡ decoded_numbers (decode_of t) }
{
    if t.count < 1 {
        return Err(Undecoded::Truncated);
    }
    let prefix = t.p0 == CPU_PREFIX;
    decode_rest(prefix, without_prefix(prefix, t))
}

fn parcel(s: &[u16], i: usize) -> u16
    ensures { result ≡ get_or s.now i 0 }
{
    s.get(i).copied().unwrap_or(0)
}

// A lent text of any length: its first six parcels, as far as they go.
pub fn decode(s: &[u16]) -> Decoded
    ensures { decoded_numbers result ≡ decoded_numbers (decode_of (text_of s.now)) }
{
    decode_text(Text {
        count: s.len(),
        p0: parcel(s, 0),
        p1: parcel(s, 1),
        p2: parcel(s, 2),
        p3: parcel(s, 3),
        p4: parcel(s, 4),
        p5: parcel(s, 5),
    })
}
