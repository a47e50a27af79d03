// Loads of one, two and four bytes at a physical address.
ghost use Rattle.std.specs.Prelude.{◌≡◌, ◌+◌, ◌*◌};
ghost use Rattle.word.specs.Widths.{bytes_of};
ghost use Rattle.memory.specs.Answers.{answer_of};
ghost use Rattle.memory.specs.Bytes.{load as load_of};

use crate::answers::{good, raised};
use crate::exceptions::BUS_FAULT;
use word::Width;

// The numbers of one, two and four bytes, the most significant first.
pub fn number1(a: u8) -> u32
    ensures { result ≡ a }
{
    a as u32
}

pub fn number2(a: u8, b: u8) -> u32
    ensures { result ≡ a * 256 + b }
{
    a as u32 * 256 + b as u32
}

pub fn number4(a: u8, b: u8, c: u8, d: u8) -> u32
    ensures { result ≡ ((a * 256 + b) * 256 + c) * 256 + d }
{
    ((a as u32 * 256 + b as u32) * 256 + c as u32) * 256 + d as u32
}

pub fn load_byte(m: &[u8], a: u32) -> u64
    ensures { answer_of result ≡ load_of 1 m.now a }
{
    let i = a as usize;
    if i + 1 <= m.len() {
        good(number1(m[i]))
    } else {
        raised(BUS_FAULT)
    }
}

pub fn load_half(m: &[u8], a: u32) -> u64
    ensures { answer_of result ≡ load_of 2 m.now a }
{
    let i = a as usize;
    if i + 2 <= m.len() {
        good(number2(m[i], m[i + 1]))
    } else {
        raised(BUS_FAULT)
    }
}

pub fn load_word(m: &[u8], a: u32) -> u64
    ensures { answer_of result ≡ load_of 4 m.now a }
{
    let i = a as usize;
    if i + 4 <= m.len() {
        good(number4(m[i], m[i + 1], m[i + 2], m[i + 3]))
    } else {
        raised(BUS_FAULT)
    }
}

// A load of a width.
pub fn load(m: &[u8], w: Width, a: u32) -> u64
    ensures { answer_of result ≡ load_of (bytes_of w) m.now a }
{
    match w {
        Width::Byte => load_byte(m, a),
        Width::Half => load_half(m, a),
        Width::Word => load_word(m, a),
    }
}
