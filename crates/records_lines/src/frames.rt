// A frame to a record.
ghost use Rattle.std.specs.Prelude.{◌≡◌, true, [], ◌∷◌, ◌++◌, length};
ghost use Rattle.refusals.specs.Numbers.{refusal_of};
ghost use Rattle.hex_digits.specs.Digits.{all_digits};
ghost use Rattle.hex_digits.specs.Output.{newline, contents, printed};
ghost use Rattle.board_lines.specs.Lines.{is_length};
ghost use Rattle.records_lines.specs.Conversions.{store_record, frame_converted, line_output, output_of};

use crate::sums::checksum;
use board_lines::Frame;
use board_lines::frames::parse;
use hex_digits::Writer;
use refusals::Refusal;

// What a record has more than its frame, with the newline.
const RECORD_MORE: usize = 5;

// A record and its newline; left out where there is no room.
fn put_record(output: &mut Writer, frame: &[u8])
    requires { (is_length (length frame.now) ≡ true) × (all_digits frame.now ≡ true) }
    ensures lent { output.new.buffer.ghost_name ≡ output.old.buffer.ghost_name }
    ensures text { contents output.new ≡ printed (store_record frame.now ++ newline ∷ []) (contents output.old) }
{
    if output.has_room(frame.len() + RECORD_MORE) {
        // Address, data and checksum have as many bytes as the frame.
        let count = (frame.len() / 2) as u8;
        let digits = &frame[2..];
        output.put_text(b"S3");
        output.put_digits(2, u32::from(count));
        output.put_text(digits);
        output.put_digits(2, u32::from(checksum(count, digits)));
        output.put_byte(b'\n');
    }
}

// A line of frames: its record, left out where there is no room; or a refusal, and the output as it was.
pub fn convert_frame(line: &[u8], output: &mut Writer) -> Result<(), Refusal>
    ensures lent { output.new.buffer.ghost_name ≡ output.old.buffer.ghost_name }
    ensures text { line_output (refusal_of result) (contents output.new)
        ≡ output_of (frame_converted line.now) (contents output.old) }
{
    match parse(line).ok_or(Refusal::MalformedLine)? {
        Frame::Store(_) => {
            put_record(output, line);
            Ok(())
        }
        _ => Err(Refusal::OtherKind),
    }
}
