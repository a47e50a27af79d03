// The stack cache: sixteen quad-words of four words, and the flat array of them.
ghost use Rattle.std.specs.Prelude.{◌≡◌, ◌-◌, ◌%◌, ◌^◌, ◌≤◌, ◌<◌};
ghost use Rattle.word.specs.Widths.{bytes_of};
ghost use Rattle.machine.specs.Cache.{cache_word, put_word, part, inserted, cache_read, cache_write, quad_of, quads_of, flat_of};

use crate::Quads;
use word::Width;
use word::fields::field;

// The word at an address.
pub fn cache_word(q: &Quads, a: u32) -> u32
    ensures { result ≡ cache_word q.now a }
{
    let i = field(a, 4, 4) as usize;
    let j = field(a, 2, 2) as usize;
    q[i][j]
}

// The word at an address, replaced.
pub fn put_word(q: &mut Quads, a: u32, v: u32)
    ensures { q.new ≡ put_word q.old a v }
{
    let i = field(a, 4, 4) as usize;
    let j = field(a, 2, 2) as usize;
    q[i][j] = v;
}

// Says that a word is below 2^32, which is not known of an element of a lent array.
fn held(x: u32) -> u32
    ensures { (result ≡ x) × (x < 2 ^ 32) }
{
    x
}

// How many bytes of a word stand below n bytes at the address a.
fn bytes_below(n: u32, a: u32) -> u32
    requires { n ≤ 4 }
    ensures { result ≡ 4 - n - a % 4 }
{
    if n + a % 4 < 4 { 4 - n - a % 4 } else { 0 }
}

// n bytes at the address a, of a word w.
fn extract(n: u32, a: u32, w: u32) -> u32
    requires { (1 ≤ n) × (n ≤ 3) }
    ensures { result ≡ part n a w }
{
    field(w, bytes_below(n, a) * 8, n * 8)
}

// The word w with the low n bytes of v at the address a.
fn insert(n: u32, a: u32, v: u32, w: u32) -> u32
    requires { (1 ≤ n) × (n ≤ 3) }
    ensures { result ≡ inserted n a v w }
{
    let s = bytes_below(n, a) * 8;
    let m = n * 8;
    let above = w >> s >> m;
    let bytes = field(v, 0, m);
    let below = field(w, 0, s);
    (((above << m) | bytes) << s) | below
}

// w bytes at an address, as an unsigned number.
pub fn cache_read(w: Width, q: &Quads, a: u32) -> u32
    ensures { result ≡ cache_read (bytes_of w) q.now a }
{
    let x = cache_word(q, a);
    match w {
        Width::Byte => extract(1, a, x),
        Width::Half => extract(2, a, x),
        Width::Word => held(x),
    }
}

// The low w bytes of v, at an address.
pub fn cache_write(w: Width, q: &mut Quads, a: u32, v: u32)
    ensures { q.new ≡ cache_write (bytes_of w) q.old a v }
{
    let x = held(cache_word(q, a));
    match w {
        Width::Byte => put_word(q, a, insert(1, a, v, x)),
        Width::Half => put_word(q, a, insert(2, a, v, x)),
        Width::Word => put_word(q, a, v),
    }
}

// Quad-word i of a flat array.
fn quad(flat: &[u32; 64], i: usize) -> [u32; 4]
    requires { i < 16 }
    ensures { result ≡ quad_of flat.now i }
{
    [
        flat[i * 4],
        flat[i * 4 + 1],
        flat[i * 4 + 2],
        flat[i * 4 + 3],
    ]
}

// The quad-words of a flat array.
pub fn quads(flat: [u32; 64]) -> Quads
    ensures { result ≡ quads_of flat }
{
    let mut q = [[0u32; 4]; 16];
    for i in 0..16 {
        q[i] = quad(&flat, i);
    }
    q
}

// The flat array of quad-words.
pub fn flat(q: &Quads) -> [u32; 64]
    ensures { result ≡ flat_of q.now }
{
    let mut f = [0u32; 64];
    for i in 0..16 {
        let w = q[i];
        f[i * 4] = w[0];
        f[i * 4 + 1] = w[1];
        f[i * 4 + 2] = w[2];
        f[i * 4 + 3] = w[3];
    }
    f
}
