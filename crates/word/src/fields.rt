// Fields and bits of words, by shifts and masks.
ghost use Rattle.std.specs.Prelude.{◌≡◌, ◌/◌, ◌%◌};
ghost use Rattle.word.specs.Fields.{field_of, bit_of, set_of, joined_of, cleared_of};

// count bits of x from bit low up; only the low five bits of low and count are used.
pub fn field(x: u32, low: u32, count: u32) -> u32
    ensures { result ≡ field_of x (low % 32) (count % 32) }
{
    (x >> (low % 32)) & ((1 << (count % 32)) - 1)
}

// Bit n of x.
pub fn bit(x: u32, n: u32) -> bool
    ensures { result ≡ bit_of x (n % 32) }
{
    field(x, n, 1) == 1
}

// x with bit n set.
pub fn set_bit(x: u32, n: u32) -> u32
    ensures { result ≡ set_of x (n % 32) }
{
    x | (1 << (n % 32))
}

// x with its low n bits 0; only the low five bits of n are used.
pub fn clear_low(x: u32, n: u32) -> u32
    ensures { result ≡ cleared_of x (n % 32) }
{
    (x >> (n % 32)) << (n % 32)
}

// A word of two halves, the high one first.
pub fn joined(high: u16, low: u16) -> u32
    ensures { result ≡ joined_of high low }
{
    ((high as u32) << 16) | (low as u32)
}

// The halves of a word.
pub fn high_half(x: u32) -> u16
    ensures { result ≡ x / 65536 }
{
    (x >> 16) as u16
}

pub fn low_half(x: u32) -> u16
    ensures { result ≡ x % 65536 }
{
    (x & 0xFFFF) as u16
}

// The top two bits of a parcel: with 0 and 1 an instruction is that one parcel, with 2 three, with 3 five (1.6.1).
pub fn form_bits(p: u16) -> u32
    ensures { result ≡ p / 0x4000 }
{
    (p >> 14) as u32
}
