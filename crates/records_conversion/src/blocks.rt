// A block of input: each line that ends in it converted, in order, up to the first that is refused.
ghost use Rattle.std.specs.Prelude.{◌≡◌, false, is_err};
ghost use Rattle.refusals.specs.Numbers.{refusal_of};
ghost use Rattle.hex_digits.specs.Output.{contents};
ghost use Rattle.lines.specs.Texts.{ended_lines};
ghost use Rattle.records_lines.specs.Conversions.{line_output, output_of};
ghost use Rattle.records_conversion.specs.Conversion.{converted_by};
ghost use Rattle.records_conversion.specs.Loop.{progress, line_done, block_done, block_from, rest_by, refused_with};

use crate::Way;
use board_lines::answers::put_refusal;
use hex_digits::Writer;
use lines::newline_from;
use records_lines::frames::convert_frame;
use records_lines::records::convert_record;
use refusals::Refusal;

// Either way.
fn convert_either(way: Way, line: &[u8], output: &mut Writer) -> Result<(), Refusal>
    ensures lent { output.new.buffer.ghost_name ≡ output.old.buffer.ghost_name }
    ensures text { line_output (refusal_of result) (contents output.new)
        ≡ output_of (converted_by way line.now) (contents output.old) }
{
    match way {
        Way::In => convert_record(line, output),
        Way::Out => convert_frame(line, output),
    }
}

// The line after line `last`: what it gives; or the line of its refusal, which ends the work.
pub fn convert_line(
    way: Way,
    line: &[u8],
    last: &mut u32,
    output: &mut Writer,
) -> Result<(), Refusal>
    ensures lent { output.new.buffer.ghost_name ≡ output.old.buffer.ghost_name }
    ensures text { progress (contents output.new) last.new (is_err result)
        ≡ line_done (converted_by way line.now) (progress (contents output.old) last.old false) }
    ensures refusal { refusal_of result ≡ (converted_by way line.now).refusal }
{
    *last = last.wrapping_add(1);
    let done = convert_either(way, line, output);
    if let Err(refusal) = done {
        put_refusal(output, refusal.number(), *last);
    }
    done
}

// The lines of a block after line `last`: where the rest begins; or the refusal that ends the work.
pub fn convert_block(
    way: Way,
    text: &[u8],
    last: &mut u32,
    output: &mut Writer,
) -> Result<usize, Refusal>
    ensures lent { output.new.buffer.ghost_name ≡ output.old.buffer.ghost_name }
    ensures text { block_done (progress (contents output.new) last.new (is_err result)) (rest_by text.now result)
        ≡ block_from way text.now (progress (contents output.old) last.old false) }
    ensures refusal { refusal_of result ≡ refused_with way (ended_lines text.now) }
{
    let mut from = 0;
    let mut to = newline_from(text, 0);
    // From newline to newline: a `for` over the lines would have to find them too, and is no plainer.
    while to < text.len() {
        convert_line(way, &text[from..to], last, output)?;
        from = to + 1;
        to = newline_from(text, from);
    }
    Ok(from)
}
