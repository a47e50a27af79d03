#![tactic(auto)]
// The lines of a text that is read in blocks: where one ends, and what is kept of one that has not ended.
ghost use Rattle.std.specs.Prelude.{◌≡◌, ◌+◌, ◌≤◌, leb, length, take, drop};
ghost use Rattle.lines.specs.Texts.{newline_at};

use memchr::memchr;

// Whether none of eight bytes is a newline, without a branch between them: the compiler takes them at once.
fn none_in_eight(text: &[u8], i: usize) -> bool
    requires { i + 8 ≤ length text.now }
    ensures { result ≡ leb 8 (newline_at (drop i text.now)) }
{
    (text[i] != b'\n')
        & (text[i + 1] != b'\n')
        & (text[i + 2] != b'\n')
        & (text[i + 3] != b'\n')
        & (text[i + 4] != b'\n')
        & (text[i + 5] != b'\n')
        & (text[i + 6] != b'\n')
        & (text[i + 7] != b'\n')
}

// How many bytes are looked at before the search that is made for long lines: short ones end in them.
const NEAR: usize = 16;

// A place up to the first newline from a place on: NEAR bytes on, or fewer than eight before the newline or the end.
fn skip(text: &[u8], from: usize) -> usize
    requires { from ≤ length text.now }
    ensures { (result ≤ length text.now)
        × (result + newline_at (drop result text.now) ≡ from + newline_at (drop from text.now)) }
{
    let mut place = from;
    for _ in 0..NEAR / 8 {
        if text.len() - place < 8 {
            return place;
        }
        if !none_in_eight(text, place) {
            return place;
        }
        place += 8;
    }
    place
}

// The place of the first newline from a place on, or the end.
pub fn newline_from(text: &[u8], from: usize) -> usize
    ensures { result ≡ from + newline_at (drop from text.now) }
{
    if text.len() <= from {
        return from;
    }
    let near = skip(text, from);
    if from + NEAR <= near {
        let rest = &text[near..];
        return near + memchr(b'\n', rest).unwrap_or(rest.len());
    }
    // Fewer than eight are left before the newline or the end.
    for i in near..text.len() {
        if text[i] == b'\n' {
            return i;
        }
    }
    text.len()
}

// The part of a block from `from` to `end` to its front: how many bytes, at most as many as are kept.
pub fn carry(block: &mut [u8], from: usize, end: usize, most: usize) -> usize
    ensures { take result block.new ≡ take most (drop from (take end block.old)) }
{
    let last = end.min(block.len());
    let first = from.min(last);
    let count = (last - first).min(most);
    block.copy_within(first..first + count, 0);
    count
}
