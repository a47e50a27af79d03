#![tactic(auto)]
// Reads parcels, one instruction a line, and writes the number that decoding answers and, for an instruction, its eight
// words, in hexadecimal. A mark follows where encoding the words at their length does not give the parcels back.
ghost use Rattle.std.specs.Prelude.{◌<◌, ◌≤◌, IfSome};

use hobbit_blocks::{decode_into, encode_from};

// The mode of an operand that is a register.
const REGISTER: u32 = 16;

// A line so far: its digits, and the parcels that they make.
#[derive(Drop)]
struct Line {
    digits: usize,
    parcels: [u16; 6],
}

// The length of an instruction in parcels, its prefix counted: at most six, which is not known of a lent block.
fn length_in(block: [u32; 8]) -> usize
    ensures { result ≤ 6 }
{
    block[2].min(6) as usize
}

// Of a register's number only bits 3:0 count (section 1.7): below is 16 for the parcel that has them, else 1.
fn cleared(mode: u32, parcel: u16, below: u16) -> u16 {
    if mode == REGISTER && 0 < below {
        parcel % below
    } else {
        parcel
    }
}

// Registers are operands after a prefix alone, so the operands begin with the third parcel.
fn without_unused(block: [u32; 8], p: [u16; 6]) -> [u16; 6] {
    let source = block[4];
    let destination = block[6];
    if block[2] == 3 + block[3] % 2 {
        [
            p[0],
            p[1],
            cleared(source, p[2], 16),
            cleared(destination, p[3], 16),
            p[4],
            p[5],
        ]
    } else {
        [
            p[0],
            p[1],
            cleared(source, p[2], 1),
            cleared(source, p[3], 16),
            cleared(destination, p[4], 1),
            cleared(destination, p[5], 16),
        ]
    }
}

// The words of the first n parcels, all 0 where they are no instruction.
fn decoded(parcels: [u16; 6], n: usize) -> [u32; 8] {
    let mut block = [0u32; 8];
    if let Some(text) = parcels.get(..n) {
        decode_into(text, &mut block);
    }
    block
}

// Whether the given parcels begin with the instruction's own, and these are decoded to it.
fn agrees(block: [u32; 8], given: [u16; 6], count: usize) -> bool {
    let n = length_in(block);
    let mut own = [0u16; 6];
    let refusal = encode_from(&block, n as u32, &mut own);
    let used = without_unused(block, given);
    refusal == 0 && n <= count && decoded(own, n) == block && own[..n] == used[..n]
}

fn put(word: u32) {
    io::write_all(1, b" ");
    io::print_hex(1, word as u64, 1);
}

fn answer(parcels: [u16; 6], count: usize) {
    let mut block = [0u32; 8];
    if let Some(text) = parcels.get(..count) {
        let number = decode_into(text, &mut block);
        io::print_hex(1, number as u64, 1);
        if number == 0 {
            for word in block {
                put(word);
            }
            if !agrees(block, parcels, count) {
                io::write_all(1, b" differs");
            }
        }
        io::write_all(1, b"\n");
    }
}

// The number of an upper-case hexadecimal digit.
fn digit(b: u8) -> Option<u16>
    ensures { IfSome result (λ d. d < 16) }
{
    match b {
        b'0'..=b'9' => Some(u16::from(b - b'0')),
        b'A'..=b'F' => Some(u16::from(b - b'A') + 10),
        _ => None,
    }
}

impl Line {
    // What is no digit, as the `-` of no parcel, and a digit after six parcels count for nothing.
    fn take(&mut self, b: u8) {
        if b == b'\n' {
            answer(self.parcels, self.digits / 4);
            self.digits = 0;
            return;
        }
        let Some(d) = digit(b) else { return };
        if self.digits < 24 {
            let k = self.digits / 4;
            self.parcels[k] = self.parcels[k] % 4096 * 16 + d;
            self.digits += 1;
        }
    }
}

fn main() {
    let mut space = io::large_buffer();
    let block: &mut [u8] = &mut space;
    let mut line = Line {
        digits: 0,
        parcels: [0; 6],
    };
    // A proved loop has to end: no run reads so often.
    for _ in 0..u64::MAX {
        let n = io::read_full(0, block);
        if n == 0 {
            return;
        }
        for b in &block[..n] {
            line.take(*b);
        }
    }
}
