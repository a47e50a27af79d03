// Stores of one, two and four bytes at a physical address.
ghost use Rattle.std.specs.Prelude.{◌≡◌};
ghost use Rattle.word.specs.Widths.{bytes_of};
ghost use Rattle.memory.specs.Answers.{answer_of};
ghost use Rattle.memory.specs.Bytes.{store_of, effect};

use crate::answers::{good, raised};
use crate::exceptions::BUS_FAULT;
use word::Width;

pub fn store_byte(m: &mut [u8], a: u32, v: u32) -> u64
    ensures { effect (answer_of result) m.new ≡ store_of 1 m.old a v }
{
    let i = a as usize;
    if i + 1 <= m.len() {
        m[i] = (v % 256) as u8;
        good(0)
    } else {
        raised(BUS_FAULT)
    }
}

pub fn store_half(m: &mut [u8], a: u32, v: u32) -> u64
    ensures { effect (answer_of result) m.new ≡ store_of 2 m.old a v }
{
    let i = a as usize;
    if i + 2 <= m.len() {
        m[i] = (v / 256 % 256) as u8;
        m[i + 1] = (v % 256) as u8;
        good(0)
    } else {
        raised(BUS_FAULT)
    }
}

pub fn store_word(m: &mut [u8], a: u32, v: u32) -> u64
    ensures { effect (answer_of result) m.new ≡ store_of 4 m.old a v }
{
    let i = a as usize;
    if i + 4 <= m.len() {
        m[i] = (v / 256 / 256 / 256 % 256) as u8;
        m[i + 1] = (v / 256 / 256 % 256) as u8;
        m[i + 2] = (v / 256 % 256) as u8;
        m[i + 3] = (v % 256) as u8;
        good(0)
    } else {
        raised(BUS_FAULT)
    }
}

// A store of a width.
pub fn store(m: &mut [u8], w: Width, a: u32, v: u32) -> u64
    ensures { effect (answer_of result) m.new ≡ store_of (bytes_of w) m.old a v }
{
    match w {
        Width::Byte => store_byte(m, a, v),
        Width::Half => store_half(m, a, v),
        Width::Word => store_word(m, a, v),
    }
}
