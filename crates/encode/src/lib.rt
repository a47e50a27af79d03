#![tactic(auto)]
// The encoder: the parcels of an instruction at a named length, or refusal 5 (section 3.3).
mod dyadic;
mod monadic;
mod operands;
mod short;
mod text;
mod values;

ghost use Rattle.std.specs.Prelude.{◌≡◌};
ghost use Rattle.isa.specs.Answers.{encoded_numbers};
ghost use Rattle.isa.specs.Encode.{encode_any, encode_of};

use crate::dyadic::encode_dyadic;
use crate::monadic::encode_monadic;
use crate::short::encode_short;
use isa::lengths::length_of;
use isa::{Encoded, Instruction};

fn encode_any(i: Instruction) -> Encoded
    ensures { result ≡ encode_any i }
{
    match i {
        Instruction::Short(s) => encode_short(s),
        Instruction::Dyadic(d) => encode_dyadic(d),
        Instruction::Monadic(m) => encode_monadic(m),
    }
}

// An instruction at a length in parcels; a length that is not its form's and its prefix's has no code.
pub fn encode(i: Instruction, length: u32) -> Encoded
    ensures { encoded_numbers result ≡ encoded_numbers (encode_of i length) }
{
    if length == length_of(i) {
        encode_any(i)
    } else {
        None
    }
}
