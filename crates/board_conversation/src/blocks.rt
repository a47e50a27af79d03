// A block of input: each line that ends in it answered, in order.
ghost use Rattle.std.specs.Prelude.{◌≡◌};
ghost use Rattle.board_conversation.specs.Blocks.{block_answered, block_on};
ghost use Rattle.board_conversation.specs.Code.{entry_io, exit_io};

use crate::BlockResult;
use crate::answers::answer_line;
use board_lines::Printer;
use lines::newline_from;
use machine::{Bank, Quads};

// The lines of a block after line `number`, up to a long run that is not the first of them.
pub fn answer_block(
    text: &[u8],
    number: u32,
    m: &mut [u8],
    q: &mut Quads,
    r: &mut Bank,
    printout: &mut Printer,
) -> BlockResult
    ensures lent { printout.new.output.buffer.ghost_name ≡ printout.old.output.buffer.ghost_name }
    ensures text { block_answered (exit_io m q r printout) result.last result.rest result.more ≡ block_on number text.now (entry_io m q r printout) }
{
    let mut last = number;
    let mut from = 0;
    let mut to = newline_from(text, 0);
    // From newline to newline: a `for` over the lines would have to find them too, and is no plainer.
    while to < text.len() {
        let next = last.wrapping_add(1);
        if answer_line(&text[from..to], 0 < from, next, m, q, r, printout) {
            return BlockResult {
                last,
                rest: from,
                more: true,
            };
        }
        last = next;
        from = to + 1;
        to = newline_from(text, from);
    }
    BlockResult {
        last,
        rest: from,
        more: false,
    }
}
