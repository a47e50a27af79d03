// Three and five parcels: which of the two the top bits of the first say.
ghost use Rattle.std.specs.Prelude.{◌≡◌};
ghost use Rattle.isa.specs.Lengths.{form_of, after_of};
ghost use Rattle.isa.specs.Decode.{decode_wide};
ghost use Rattle.decode.specs.Forms.{monadic_form, first_of, second_of};

use crate::dyadic::decode_dyadic;
use crate::fields::opcode_bits;
use crate::monadic::decode_monadic;
use isa::lengths::wide_length;
use isa::{Decoded, Undecoded, Wide};
use word::fields::{form_bits, joined};

// The form of a parcel whose top bit is 1.
pub fn find_form(p: u16) -> Wide
    ensures { result ≡ form_of p }
{
    if form_bits(p) < 3 {
        Wide::Three
    } else {
        Wide::Five
    }
}

// How many parcels a form calls for after the first.
fn after(wide: Wide) -> usize
    ensures { result ≡ after_of wide }
{
    wide_length(wide) as usize - 1
}

// Opcode 0 of three parcels is the monadics'.
pub fn is_monadic(wide: Wide, p: u16) -> bool
    ensures { result ≡ monadic_form wide p }
{
    matches!(wide, Wide::Three) && opcode_bits(p as u32) == 0
}

// The first operand field, of the parcels a and b.
pub fn first(wide: Wide, a: u16, b: u16) -> u32
    ensures { result ≡ first_of wide a b }
{
    match wide {
        Wide::Three => a as u32,
        Wide::Five => joined(a, b),
    }
}

// The second operand field, of the parcels after a.
pub fn second(wide: Wide, b: u16, c: u16, d: u16) -> u32
    ensures { result ≡ second_of wide b c d }
{
    match wide {
        Wide::Three => b as u32,
        Wide::Five => joined(c, d),
    }
}

// A parcel p whose top bit is 1 and the parcels after it, of which there are n.
pub(crate) fn decode_wide(prefix: bool, n: usize, p: u16, a: u16, b: u16, c: u16, d: u16) -> Decoded
    ensures { result ≡ decode_wide prefix n p a b c d }
{
    let wide = find_form(p);
    if n < after(wide) {
        return Err(Undecoded::Truncated);
    }
    if is_monadic(wide, p) {
        decode_monadic(prefix, p, joined(a, b))
    } else {
        decode_dyadic(wide, prefix, p, first(wide, a, b), second(wide, b, c, d))
    }
}
