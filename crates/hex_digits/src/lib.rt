#![tactic(auto)]
// Text put into a lent buffer: bytes, and the upper-case hexadecimal digits of numbers.
ghost use Rattle.std.specs.Prelude.{◌≡◌, ◌+◌, ◌%◌, ◌≤◌, [], ◌∷◌, leb, length};
ghost use Rattle.hex_digits.specs.Digits.{digit_byte, digits};
ghost use Rattle.hex_digits.specs.Output.{written, printed, contents};

// A lent buffer, and the place of the next byte.
#[derive(Drop)]
pub struct Writer<'a> {
    pub buffer: &'a mut [u8],
    pub place: usize,
}

const DIGITS: &[u8; 16] = b"0123456789ABCDEF";

// The last digit of a number.
#[tactic(auto, using(crate::proofs::DigitLaws::in_table))]
pub fn last_digit(x: u32) -> u8
    ensures { result ≡ digit_byte (x % 16) }
{
    DIGITS[(x % 16) as usize]
}

// From the last digit on.
fn store_digits(out: &mut [u8], at: usize, count: usize, x: u32)
    requires { at + count ≤ length out.old }
    ensures { out.new ≡ written out.old at (digits count x) }
{
    let mut left = x;
    for i in (0..count).rev() {
        out[at + i] = last_digit(left);
        left /= 16;
    }
}

impl Writer<'_> {
    // Whether there is room for so many bytes more.
    pub fn has_room(&self, size: usize) -> bool
        ensures { result ≡ leb (self.now.place + size) (length self.now.buffer.now) }
    {
        let n = self.buffer.len();
        (self.place <= n) && (size <= n - self.place)
    }

    // A byte; left out where there is no room.
    pub fn put_byte(&mut self, byte: u8)
        ensures lent { self.new.buffer.ghost_name ≡ self.old.buffer.ghost_name }
        ensures text { contents self.new ≡ printed (byte ∷ []) (contents self.old) }
    {
        if self.has_room(1) {
            self.buffer[self.place] = byte;
            self.place += 1;
        }
    }

    // The low digits of a number, as many as `count`; left out where there is no room.
    pub fn put_digits(&mut self, count: usize, x: u32)
        ensures lent { self.new.buffer.ghost_name ≡ self.old.buffer.ghost_name }
        ensures text { contents self.new ≡ printed (digits count x) (contents self.old) }
    {
        if self.has_room(count) {
            store_digits(self.buffer, self.place, count, x);
            self.place += count;
        }
    }

    // A text; left out where there is no room.
    pub fn put_text(&mut self, text: &[u8])
        ensures lent { self.new.buffer.ghost_name ≡ self.old.buffer.ghost_name }
        ensures text { contents self.new ≡ printed text.now (contents self.old) }
    {
        if self.has_room(text.len()) {
            let end = self.place + text.len();
            self.buffer[self.place..end].copy_from_slice(text);
            self.place = end;
        }
    }
}
