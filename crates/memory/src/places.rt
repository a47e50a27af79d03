// Where an operand lies in its word, and which sizes of memory are whole pages.
ghost use Rattle.std.specs.Prelude.{◌≡◌};
ghost use Rattle.memory.specs.Bytes.{flipped, place_of, whole_pages};

use word::Width;

// The place of an operand in little-endian order.
pub fn flip(w: Width, a: u32) -> u32
    ensures { result ≡ flipped w a }
{
    match w {
        Width::Byte => a ^ 3,
        Width::Half => a ^ 2,
        Width::Word => a,
    }
}

// The place of an operand in either order.
pub fn place(little: bool, w: Width, a: u32) -> u32
    ensures { result ≡ place_of little w a }
{
    if little { flip(w, a) } else { a }
}

// The bytes of a page, and of the largest memory.
const PAGE: usize = 4096;

const MOST: usize = 4096 * PAGE;

// Whether n bytes are from 1 to 4,096 whole pages.
pub fn whole_pages(n: usize) -> bool
    ensures { result ≡ whole_pages n }
{
    (n % PAGE == 0) & (PAGE <= n) & (n <= MOST)
}
