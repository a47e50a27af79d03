// An exchange of a program's loop: between a read and a write.
ghost use Rattle.std.specs.Prelude.{◌≡◌, false, take, is_err};
ghost use Rattle.refusals.specs.Numbers.{refusal_of};
ghost use Rattle.hex_digits.specs.Output.{contents};
ghost use Rattle.lines.specs.Texts.{last_line, ended_lines};
ghost use Rattle.records_conversion.specs.Loop.{progress, lines_done, exchange_done, exchange_from, from_start, conversion_start, refused_with};

use crate::blocks::{convert_block, convert_line};
use crate::{ConversionState, Way};
use hex_digits::Writer;
use lines::carry;
use refusals::Refusal;

// No record and no frame is as long, so an unended line that is cut there stays refused.
const MOST_KEPT: usize = 515;

impl ConversionState {
    // Before the first read.
    pub fn new() -> ConversionState
        ensures { result ≡ conversion_start }
    {
        ConversionState { end: 0, last: 0 }
    }

    // The lines that end, where the block is filled up to `end`: what they give fills the buffer from its start. A refusal ends
    // the work.
    pub fn convert(
        &mut self,
        way: Way,
        end: usize,
        block: &mut [u8],
        output: &mut Writer,
    ) -> Result<(), Refusal>
        ensures lent { output.new.buffer.ghost_name ≡ output.old.buffer.ghost_name }
        ensures text { exchange_done (progress (contents output.new) self.new.last (is_err result)) (take self.new.end block.new)
            ≡ exchange_from way (take end block.old) (progress (from_start output.old) self.old.last false) }
        ensures refusal { refusal_of result ≡ refused_with way (ended_lines (take end block.old)) }
    {
        output.place = 0;
        let filled = end.min(block.len());
        let done = convert_block(way, &block[..filled], &mut self.last, output);
        self.end = carry(block, done.unwrap_or(filled), filled, MOST_KEPT);
        done.map(|_| ())
    }

    // At the end of input: the last line may have no newline. What it gives fills the buffer from its start.
    pub fn finish(self, way: Way, block: &[u8], output: &mut Writer)
        ensures lent { output.new.buffer.ghost_name ≡ output.old.buffer.ghost_name }
        ensures text { contents output.new
            ≡ (lines_done way (last_line (take self.end block.now)) (progress (from_start output.old) self.last false)).output }
    {
        output.place = 0;
        let filled = self.end.min(block.len());
        if 0 < filled {
            let mut last = self.last;
            // A refusal ends the work as the end of input does.
            let _ = convert_line(way, &block[..filled], &mut last, output);
        }
    }
}
