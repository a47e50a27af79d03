// A record to frames.
ghost use Rattle.std.specs.Prelude.{◌≡◌, ◌+◌, ◌<◌, ◌≤◌, true, [], ◌∷◌, ◌++◌, length, unwrap_or, IfSome};
ghost use Rattle.refusals.specs.Numbers.{refusal_of};
ghost use Rattle.hex_digits.specs.Digits.{all_digits, number_at};
ghost use Rattle.hex_digits.specs.Output.{newline, contents, printed};
ghost use Rattle.lines.specs.Texts.{lines_text};
ghost use Rattle.records_lines.specs.Records.{address_bytes, is_data_type, is_count, is_record, record_refusal};
ghost use Rattle.records_lines.specs.Conversions.{store_frame, frames_of, record_converted, line_output, output_of};

use crate::sums::checksum;
use board_lines::digits::{all_digits, byte_of, byte_of_digits, number_of};
use hex_digits::Writer;
use refusals::Refusal;

// S, type and count: what the count does not count.
const HEAD: usize = 4;

// The last type that may have data.
const LAST_WITH_DATA: u8 = b'3';

// Frames of this kind store bytes, 32 at most, which have as many digits.
const STORE_KIND: u32 = 2;

const MOST_BYTES: u32 = 32;

const MOST_DIGITS: usize = 64;

// Kind, address and newline of a frame.
const FRAME_REST: usize = 11;

// How many bytes the address has, by the type's byte; None is no type. A type of data has the same as the one that ends it.
#[tactic(auto, using(crate::proofs::RecordLaws::either_type, crate::proofs::RecordLaws::other_type), unfolding(crate::specs::Records::address_bytes))]
fn address_bytes(kind: u8) -> Option<usize>
    ensures { (unwrap_or result 0 ≡ address_bytes kind) × IfSome result (λ size. (0 < size) × (size ≤ 4)) }
{
    match kind {
        b'0' | b'5' => Some(2),
        b'1' | b'9' => Some(2),
        b'2' | b'8' => Some(3),
        b'3' | b'7' => Some(4),
        _ => None,
    }
}

// Whether records of a type may have this count.
fn is_count(kind: u8, count: usize) -> bool
    ensures { result ≡ is_count kind count }
{
    match address_bytes(kind) {
        Some(size) => {
            if kind <= LAST_WITH_DATA {
                size + 1 <= count
            } else {
                count == size + 1
            }
        }
        None => false,
    }
}

// Whether a line is a record, be its checksum right or wrong.
fn is_record(line: &[u8]) -> bool
    ensures { result ≡ is_record line.now }
{
    let n = line.len();
    if n < HEAD {
        return false;
    }
    let count = usize::from(byte_of(line[2], line[3]));
    if (line[0] == b'S') & (n == HEAD + 2 * count) {
        return is_count(line[1], count) & all_digits(&line[2..]);
    }
    false
}

// Whether a line is a record with the right checksum.
fn check(line: &[u8]) -> Result<(), Refusal>
    ensures { refusal_of result ≡ record_refusal line.now }
{
    if !is_record(line) {
        return Err(Refusal::MalformedRecord);
    }
    let end = line.len() - 2;
    let sum = byte_of_digits(line[end], line[end + 1]);
    if sum == checksum(0, &line[2..end]) {
        Ok(())
    } else {
        Err(Refusal::WrongChecksum)
    }
}

// The number of an address.
fn address_of(digits: &[u8]) -> u32
    requires { (length digits.now ≤ 8) × (all_digits digits.now ≡ true) }
    ensures { result ≡ number_at (length digits.now) digits.now 0 }
{
    let mut address = 0u32;
    for digit in digits {
        address = address * 16 + u32::from(number_of(*digit));
    }
    address
}

// A frame and its newline, into a buffer of its size: so the place need not go through memory at each part.
fn write_frame(out: &mut [u8], address: u32, digits: &[u8])
    requires { length out.old ≡ length digits.now + 11 }
    ensures { out.new ≡ store_frame address digits.now ++ newline ∷ [] }
{
    let mut frame = Writer {
        buffer: out,
        place: 0,
    };
    frame.put_digits(2, STORE_KIND);
    frame.put_digits(8, address);
    frame.put_text(digits);
    frame.put_byte(b'\n');
}

// The same behind what was printed.
fn put_frame(output: &mut Writer, address: u32, digits: &[u8])
    requires { output.old.place + length digits.now + 11 ≤ length output.old.buffer.now }
    ensures lent { output.new.buffer.ghost_name ≡ output.old.buffer.ghost_name }
    ensures text { contents output.new ≡ printed (store_frame address digits.now ++ newline ∷ []) (contents output.old) }
{
    let place = output.place;
    let end = place + digits.len() + FRAME_REST;
    write_frame(&mut output.buffer[place..end], address, digits);
    output.place = end;
}

// All frames of data; left out where there is no room for them all.
fn put_frames(output: &mut Writer, address: u32, bytes: &[u8])
    ensures lent { output.new.buffer.ghost_name ≡ output.old.buffer.ghost_name }
    ensures text { contents output.new ≡ printed (lines_text (frames_of address bytes.now)) (contents output.old) }
{
    // A last frame may have fewer digits.
    let size = bytes.len() + bytes.len().div_ceil(MOST_DIGITS) * FRAME_REST;
    if output.has_room(size) {
        let mut next = address;
        for digits in bytes.chunks(MOST_DIGITS) {
            put_frame(output, next, digits);
            next = next.wrapping_add(MOST_BYTES);
        }
    }
}

// S1, S2 and S3.
fn is_data_type(kind: u8) -> bool
    ensures { result ≡ is_data_type kind }
{
    (b'1' <= kind) & (kind <= LAST_WITH_DATA)
}

// A line of records: its frames, left out where there is no room for them all; or a refusal, and the output as it was.
pub fn convert_record(line: &[u8], output: &mut Writer) -> Result<(), Refusal>
    ensures lent { output.new.buffer.ghost_name ≡ output.old.buffer.ghost_name }
    ensures text { line_output (refusal_of result) (contents output.new)
        ≡ output_of (record_converted line.now) (contents output.old) }
{
    check(line)?;
    if is_data_type(line[1]) {
        if let Some(size) = address_bytes(line[1]) {
            let digits = &line[HEAD..line.len() - 2];
            let (address, data) = digits.split_at(2 * size);
            put_frames(output, address_of(address), data);
        }
    }
    Ok(())
}
