// A line's frame.
ghost use Rattle.std.specs.Prelude.{◌≡◌, true, length};
ghost use Rattle.hex_digits.specs.Digits.{all_digits};
ghost use Rattle.board_lines.specs.Lines.{is_length, of_twelve, frame_of, numbers_of};

use crate::Frame;
use crate::digits::{all_digits, byte_at, word_at};

fn is_length(n: usize) -> bool
    ensures { result ≡ is_length n }
{
    (12 <= n) & (n <= 74) & (n % 2 == 0)
}

// Kinds 01, 03 and 04.
fn of_twelve(kind: u8, line: &[u8]) -> Option<Frame>
    requires { (length line.now ≡ 12) × (all_digits line.now ≡ true) }
    ensures { result ≡ of_twelve kind line.now }
{
    match kind {
        1 => Some(Frame::Set(u32::from(byte_at(line, 2)), word_at(line, 4))),
        3 => Some(Frame::Run(word_at(line, 2), u32::from(byte_at(line, 10)))),
        4 => Some(Frame::Confined(word_at(line, 2), u32::from(byte_at(line, 10)))),
        _ => None,
    }
}

// None is a malformed line.
pub fn parse(line: &[u8]) -> Option<Frame>
    ensures { numbers_of result ≡ numbers_of (frame_of line.now) }
{
    let n = line.len();
    if !is_length(n) {
        return None;
    }
    if !all_digits(line) {
        return None;
    }
    let kind = byte_at(line, 0);
    if kind == 2 {
        return Some(Frame::Store(word_at(line, 2)));
    }
    if n == 12 { of_twelve(kind, line) } else { None }
}
