#![tactic(auto)]
// Walks over tables in 64 KB of memory, as lines of hexadecimal numbers say (crates/test_walks/stdin, written by tests/walks.py):
//   0 ADDRESS WORD                            stores a word
//   1 KIND LEVEL VA STB TRANSLATED BYTES      walks and records, with so many bytes of memory: prints what the access is
//                                             (0 fetch, 1 read, 2 write), its level (1 user), the virtual address; how the
//                                             walk ends (0 fault, 1 no page entry, 2 by a page entry), the exception or the
//                                             physical address, and the page entry's address and its word after recording
//   2 ADDRESS                                 prints a word
use memory::answers::low32;
use memory::loads::load_word;
use memory::stores::store_word;
use mmu::recording::record_access;
use mmu::translation::route;
use mmu::{AccessKind, Walk};

// A line so far: its numbers, and the place of the one that goes on.
#[derive(Clone, Copy)]
struct Line {
    at: usize,
    numbers: [u32; 7],
}

fn kind_of(n: u32) -> AccessKind {
    if n == 0 {
        AccessKind::Fetch
    } else if n == 1 {
        AccessKind::Read
    } else {
        AccessKind::Write
    }
}

fn put(n: u32, width: usize, end: &[u8]) {
    io::print_hex(1, n as u64, width);
    io::write_all(1, end);
}

// How a walk ended.
fn put_result(how: u32, a: u32, p: u32, word: u32) {
    put(how, 1, b" ");
    put(a, 8, b" ");
    put(p, 8, b" ");
    put(word, 8, b"\n");
}

fn walk(m: &mut [u8], kind: u32, level: u32, va: u32, stb: u32, translated: u32) {
    put(kind, 1, b" ");
    put(level, 1, b" ");
    put(va, 8, b" ");
    let w = route(m, stb, level == 1, translated == 1, kind_of(kind), va);
    match w {
        Walk::Fault(c) => put_result(0, c, 0, 0),
        Walk::Direct(pa) => put_result(1, pa, 0, 0),
        Walk::Paged(p, pa) => {
            record_access(m, kind_of(kind), p);
            put_result(2, pa, p, low32(load_word(m, p)));
        }
    }
}

fn obey(m: &mut [u8], n: [u32; 7]) {
    let bytes = n[6] as usize;
    if n[0] == 0 {
        store_word(m, n[1], n[2]);
    } else if n[0] == 2 {
        put(low32(load_word(m, n[1])), 8, b"\n");
    } else if bytes <= m.len() {
        walk(&mut m[..bytes], n[1], n[2], n[3], n[4], n[5]);
    }
}

// The number of an upper-case hexadecimal digit, 16 of any other byte.
fn digit(b: u8) -> u32 {
    if b'0' <= b && b <= b'9' {
        (b - 48) as u32
    } else if b'A' <= b && b <= b'F' {
        (b - 55) as u32
    } else {
        16
    }
}

// A byte that is no digit ends a number.
fn take_byte(m: &mut [u8], line: Line, b: u8) -> Line {
    let at = line.at;
    let mut numbers = line.numbers;
    if b == b'\n' {
        obey(m, numbers);
        return Line {
            at: 0,
            numbers: [0; 7],
        };
    }
    let d = digit(b);
    if at < 7 {
        if d < 16 {
            numbers[at] = numbers[at] % 0x1000_0000 * 16 + d;
            return Line { at, numbers };
        }
        return Line {
            at: at + 1,
            numbers,
        };
    }
    line
}

fn take_lines(block: &[u8], m: &mut [u8]) {
    let mut line = Line {
        at: 0,
        numbers: [0; 7],
    };
    let mut i = 0;
    while i < block.len() {
        line = take_byte(m, line, block[i]);
        i = i + 1;
    }
}

// The lines have room in one block.
fn main() {
    let mut m = io::large_buffer();
    let mut block = io::large_buffer();
    let n = io::read_full(0, &mut block);
    take_lines(&block[..n], &mut m);
}
