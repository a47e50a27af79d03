// Operands of less than a word, extended to a word (1.2).
ghost use Rattle.std.specs.Prelude.{◌≡◌, ◌-◌, ◌%◌};
ghost use Rattle.word.specs.Widths.{bits_of, bytes_of, sign_extend_of};

use crate::Width;
use crate::shifts::{shl, shr};

// The width in bits.
pub fn bits(w: Width) -> u32
    ensures { result ≡ bits_of w }
{
    match w {
        Width::Byte => 8,
        Width::Half => 16,
        Width::Word => 32,
    }
}

// The width in bytes.
pub fn bytes(w: Width) -> u32
    ensures { result ≡ bytes_of w }
{
    match w {
        Width::Byte => 1,
        Width::Half => 2,
        Width::Word => 4,
    }
}

// A signed number in all but the top bits, as many as the low five bits of n say, at 32 bits.
pub fn extend(n: u32, x: u32) -> u32
    ensures { result ≡ sign_extend_of (32 - n % 32) x }
{
    shr(shl(x, n), n)
}

// The low bits of a signed operand, at 32 bits.
pub fn sign_extend(w: Width, x: u32) -> u32
    ensures { result ≡ sign_extend_of (bits_of w) x }
{
    extend(32 - bits(w), x)
}
