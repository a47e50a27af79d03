// An access's answer in one number: a value below 2^32, or 2^32 more than an exception's number.
ghost use Rattle.std.specs.Prelude.{◌≡◌, ◌%◌, ◌^◌};
ghost use Rattle.memory.specs.Answers.{answer_of, good, raised};

// Answers from here on are exceptions: this and the number.
pub const EXCEPTION: u64 = 0x1_0000_0000;

// The answer of an access that was made, with its value.
pub fn good(v: u32) -> u64
    ensures { answer_of result ≡ good v }
{
    v as u64
}

// The answer of an access that raises exception c.
pub fn raised(c: u32) -> u64
    ensures { answer_of result ≡ raised c }
{
    EXCEPTION + c as u64
}

// The value or the exception's number.
pub fn low32(a: u64) -> u32
    ensures { result ≡ a % 2 ^ 32 }
{
    (a & 0xFFFF_FFFF) as u32
}
