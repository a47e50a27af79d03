// Upper-case hexadecimal digits: tests of bytes, and numbers of two and eight digits.
ghost use Rattle.std.specs.Prelude.{◌≡◌, ◌+◌, ◌*◌, ◌/◌, ◌%◌, ◌<◌, ◌≤◌, true, length, take, drop};
ghost use Rattle.hex_digits.specs.Digits.{is_digit, all_digits, digit_of, number_at};

fn is_digit(b: u8) -> bool
    ensures { result ≡ is_digit b }
{
    ((b'0' <= b) & (b <= b'9')) | ((b'A' <= b) & (b <= b'F'))
}

// Eight bytes without a branch between them: the compiler takes them at once.
fn eight_digits(line: &[u8], i: usize) -> bool
    requires { i + 8 ≤ length line.now }
    ensures { result ≡ all_digits (take 8 (drop i line.now)) }
{
    is_digit(line[i])
        & is_digit(line[i + 1])
        & is_digit(line[i + 2])
        & is_digit(line[i + 3])
        & is_digit(line[i + 4])
        & is_digit(line[i + 5])
        & is_digit(line[i + 6])
        & is_digit(line[i + 7])
}

#[tactic(auto, using(crate::proofs::DigitLaws::next_eight))]
fn sixteen_digits(line: &[u8], i: usize) -> bool
    requires { i + 16 ≤ length line.now }
    ensures { result ≡ all_digits (take 16 (drop i line.now)) }
{
    eight_digits(line, i) & eight_digits(line, i + 8)
}

// One after another.
fn few_digits(line: &[u8]) -> bool
    ensures { result ≡ all_digits line.now }
{
    line.iter().all(|b| is_digit(*b))
}

// By eights or sixteens, if there are as many: `all` over the bytes takes twelve instructions a byte, this takes one or two.
// The last ones end with the line, over some that were read already.
pub fn all_digits(line: &[u8]) -> bool
    ensures { result ≡ all_digits line.now }
{
    let n = line.len();
    if n < 8 {
        return few_digits(line);
    }
    if n < 16 {
        return eight_digits(line, 0) & eight_digits(line, n - 8);
    }
    let mut i = 0;
    while i + 16 < n {
        if sixteen_digits(line, i) {
            i = i + 16;
        } else {
            return false;
        }
    }
    sixteen_digits(line, n - 16)
}

// The number of a digit, and some number of any other byte. Bit 6 is set in letters alone, whose low bits count from 1.
#[tactic(auto, using(crate::proofs::DigitLaws::digit_number))]
pub fn number_of(b: u8) -> u8
    ensures number { result ≡ b % 16 + b / 64 * 9 }
    ensures digit { is_digit b ≡ true → (result ≡ digit_of b) × (result < 16) }
{
    b % 16 + b / 64 * 9
}

// The number of two digits, and some number of any other bytes.
pub fn byte_of_digits(high: u8, low: u8) -> u8
    ensures number { result ≡ ((high % 16 + high / 64 * 9) * 16 + low % 16 + low / 64 * 9) % 256 }
    ensures digits { is_digit high ≡ true → is_digit low ≡ true → result ≡ digit_of high * 16 + digit_of low }
{
    number_of(high)
        .wrapping_mul(16)
        .wrapping_add(number_of(low))
}

#[tactic(auto, using(crate::proofs::DigitLaws::no_digit))]
fn value(b: u8) -> u8
    ensures { (result ≡ digit_of b) × (result < 16) }
{
    if is_digit(b) { number_of(b) } else { 0 }
}

// The number of two bytes, digits or not.
pub fn byte_of(high: u8, low: u8) -> u8
    ensures { result ≡ digit_of high * 16 + digit_of low }
{
    value(high) * 16 + value(low)
}

// The number of the two bytes from i on, digits or not.
pub(crate) fn any_byte_at(line: &[u8], i: usize) -> u8
    requires { i + 2 ≤ length line.now }
    ensures { result ≡ number_at 2 line.now i }
{
    byte_of(line[i], line[i + 1])
}

// The number of the two digits from i on.
pub(crate) fn byte_at(line: &[u8], i: usize) -> u8
    requires { (i + 2 ≤ length line.now) × (all_digits line.now ≡ true) }
    ensures { result ≡ number_at 2 line.now i }
{
    byte_of_digits(line[i], line[i + 1])
}

// The number of the eight digits from i on.
pub(crate) fn word_at(line: &[u8], i: usize) -> u32
    requires { (i + 8 ≤ length line.now) × (all_digits line.now ≡ true) }
    ensures { result ≡ number_at 8 line.now i }
{
    u32::from_be_bytes([
        byte_at(line, i),
        byte_at(line, i + 2),
        byte_at(line, i + 4),
        byte_at(line, i + 6),
    ])
}
