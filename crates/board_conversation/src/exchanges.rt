// An exchange of the program's loop: between a read and a write.
ghost use Rattle.std.specs.Prelude.{◌≡◌, take, drop};
ghost use Rattle.lines.specs.Texts.{next, last_line};
ghost use Rattle.board_conversation.specs.Blocks.{lines_on};
ghost use Rattle.board_conversation.specs.Loop.{exchange, exchange_of, beginning, totals_on};
ghost use Rattle.board_conversation.specs.Code.{cleared_io, exit_io};

use crate::LoopState;
use crate::answers::answer_line;
use crate::blocks::answer_block;
use board_lines::Printer;
use lines::carry;
use machine::{Bank, Quads};

// No frame is as long, so an unended line that is cut there stays bad.
const MOST_CARRIED: usize = 75;

// Before the first read.
pub fn begin() -> LoopState
    ensures { result ≡ beginning }
{
    LoopState {
        from: 0,
        end: 0,
        more: false,
        last: 0,
    }
}

// The lines that are answered before the next write, where the block is filled up to `end`; their answers fill the buffer from
// its start.
pub fn converse(
    s: LoopState,
    end: usize,
    block: &mut [u8],
    m: &mut [u8],
    q: &mut Quads,
    r: &mut Bank,
    printout: &mut Printer,
) -> LoopState
    ensures lent { printout.new.output.buffer.ghost_name ≡ printout.old.output.buffer.ghost_name }
    ensures text { exchange (exit_io m q r printout) result.last (drop result.from (take result.end block.new)) result.more
        ≡ exchange_of s.last (drop s.from (take end block.old)) (cleared_io m q r printout) }
{
    printout.output.place = 0;
    let e = end.min(block.len());
    let f = s.from.min(e);
    let t = answer_block(&block[f..e], s.last, m, q, r, printout);
    let from = f + t.rest;
    if t.more {
        return LoopState {
            from,
            end: e,
            more: true,
            last: t.last,
        };
    }
    LoopState {
        from: 0,
        end: carry(block, from, e, MOST_CARRIED),
        more: false,
        last: t.last,
    }
}

// At the end of input: the last line may have no newline. Its answer and the totals fill the buffer from its start.
pub fn finish(
    s: LoopState,
    block: &[u8],
    m: &mut [u8],
    q: &mut Quads,
    r: &mut Bank,
    printout: &mut Printer,
)
    ensures lent { printout.new.output.buffer.ghost_name ≡ printout.old.output.buffer.ghost_name }
    ensures text { exit_io m q r printout
        ≡ totals_on (lines_on (next s.last) (last_line (drop s.from (take s.end block.now))) (cleared_io m q r printout)) }
{
    printout.output.place = 0;
    let e = s.end.min(block.len());
    let f = s.from.min(e);
    if f < e {
        answer_line(
            &block[f..e],
            false,
            s.last.wrapping_add(1),
            m,
            q,
            r,
            printout,
        );
    }
    printout.put_totals();
}
