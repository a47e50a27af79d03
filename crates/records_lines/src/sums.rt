// The checksum of a record.
ghost use Rattle.std.specs.Prelude.{◌≡◌, ◌+◌, ◌-◌, ◌%◌, true};
ghost use Rattle.hex_digits.specs.Digits.{all_digits};
ghost use Rattle.records_lines.specs.Records.{digit_bytes, byte_sum};

use board_lines::digits::byte_of_digits;

// The bytes of digits summed, modulo 256.
fn low_sum(digits: &[u8]) -> u8
    requires { all_digits digits.now ≡ true }
    ensures { result ≡ byte_sum (digit_bytes digits.now) % 256 }
{
    let mut sum = 0u8;
    for pair in digits.chunks_exact(2) {
        sum = sum.wrapping_add(byte_of_digits(pair[0], pair[1]));
    }
    sum
}

// The checksum of a byte and the bytes of digits after it.
pub(crate) fn checksum(first: u8, digits: &[u8]) -> u8
    requires { all_digits digits.now ≡ true }
    ensures { result ≡ 255 - (first + byte_sum (digit_bytes digits.now)) % 256 }
{
    255 - first.wrapping_add(low_sum(digits))
}
