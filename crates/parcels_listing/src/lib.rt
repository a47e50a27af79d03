#![tactic(auto)]
// The list of every one-parcel instruction: which parcels are on it, the line of one, and the lines that a lent buffer has
// room for.
ghost use Rattle.std.specs.Prelude.{◌≡◌, ◌+◌, ◌≤◌, length};
ghost use Rattle.hex_digits.specs.Output.{output, written};
ghost use Rattle.parcels_listing.specs.Listing.{is_legal, on_list, line_size, parcel_line};
ghost use Rattle.parcels_listing.specs.Portions.{portion, portion_of};

use decode::decode;
use decode::fields::{short_opcode, short_operands};
use hex_digits::Writer;
use isa::{Decoded, Undecoded};
use word::fields::form_bits;

// A parcel is below this.
pub const PARCEL_COUNT: u32 = 0x10000;

// Nine digits and a newline.
const LINE_SIZE: usize = 10;

// After a portion of the list: the parcel that the next one begins with, PARCEL_COUNT where nothing is left. The first `place`
// bytes of the buffer are to be written. Theorem Printing speaks of both numbers.
#[derive(Clone, Copy)]
pub struct ListState {
    pub next: u32,
    pub place: usize,
}

// A prefix alone is cut text.
fn is_legal(d: Decoded) -> bool
    ensures { result ≡ is_legal d }
{
    matches!(d, Ok(_) | Err(Undecoded::Truncated))
}

// Whether a parcel is on the list: its top bit is 0, and it is legal alone.
pub fn on_list(p: u16) -> bool
    ensures { result ≡ on_list p }
{
    form_bits(p) < 2 && is_legal(decode(&[p]))
}

// The line of a parcel.
#[tactic(auto, using(crate::proofs::LineLaws::line_put))]
fn put_line(out: &mut [u8], at: usize, p: u32)
    requires { at + line_size ≤ length out.old }
    ensures { out.new ≡ written out.old at (parcel_line p) }
{
    let mut line = Writer {
        buffer: out,
        place: at,
    };
    line.put_digits(4, p);
    line.put_digits(2, short_opcode(p));
    line.put_digits(3, short_operands(p));
    line.put_byte(b'\n');
}

// The lines from a parcel on, as many as there is room for; they fill the buffer from its start.
pub fn put_lines(first: u32, out: &mut [u8]) -> ListState
    ensures { portion result.next (output out.new result.place) ≡ portion_of first out.old }
{
    let mut place = 0;
    for p in first..PARCEL_COUNT {
        if on_list(p as u16) {
            if out.len() - place < LINE_SIZE {
                return ListState { next: p, place };
            }
            put_line(out, place, p);
            place += LINE_SIZE;
        }
    }
    ListState {
        next: PARCEL_COUNT,
        place,
    }
}
