// How many parcels an instruction has: those of its form, and one for a CPU prefix.
ghost use Rattle.std.specs.Prelude.{◌≡◌};
ghost use Rattle.isa.specs.Lengths.{wide_length, prefix_length, length_of};
ghost use Rattle.isa.specs.Answers.{with_length};

use crate::{Decoded, Instruction, Wide};

// One parcel, which takes no prefix.
pub const SHORT_LENGTH: u32 = 1;

pub fn wide_length(w: Wide) -> u32
    ensures { result ≡ wide_length w }
{
    match w {
        Wide::Three => 3,
        Wide::Five => 5,
    }
}

pub fn prefix_length(prefix: bool) -> u32
    ensures { result ≡ prefix_length prefix }
{
    u32::from(prefix)
}

pub fn length_of(i: Instruction) -> u32
    ensures { result ≡ length_of i }
{
    match i {
        Instruction::Short(_) => SHORT_LENGTH,
        Instruction::Dyadic(d) => {
            let w = d.wide;
            wide_length(w) + prefix_length(d.prefix)
        }
        Instruction::Monadic(m) => wide_length(Wide::Three) + prefix_length(m.prefix),
    }
}

// An instruction as the decoder answers it.
pub fn with_length(i: Instruction) -> Decoded
    ensures { result ≡ with_length i }
{
    Ok((i, length_of(i)))
}
