#![tactic(auto)]
// The loop of a board program: lines from standard input, answers to standard output. It reads, makes an exchange of
// the conversation (`board_conversation::exchanges`), and writes what that answered; no contract can say what is read or written.
use board_conversation::LoopState;
use board_conversation::exchanges::{begin, converse, finish};
use board_lines::{Printer, Tally};
use channels::{Failed, receive, send};
use hex_digits::Writer;
use machine::record::{start_bank, start_cache};

const BLOCK: usize = 32768;

// No line prints more than 13 bytes for each of its own, its newline among them; the totals come where at most one line of 75
// bytes is left.
const ROOM: usize = 13 * BLOCK;

// Reads behind what is kept, unless a line is left to be answered: up to where the block is filled then, or None at the end
// of input.
fn more_input(rt: &HostRuntime, s: LoopState, block: &mut [u8]) -> Result<Option<usize>, Failed> {
    if s.more {
        return Ok(Some(s.end));
    }
    receive(rt, block, s.end)
}

// Until the input ends, or a read or a write fails.
fn converse_all(
    rt: &HostRuntime,
    memory: &mut [u8],
    block: &mut [u8],
    printout: &mut Printer,
) -> Result<(), Failed> {
    let mut quads = start_cache();
    let mut bank = start_bank();
    let mut s = begin();
    // A proved loop has to end: no run uses up as many turns.
    for _ in 0..u64::MAX {
        let Some(end) = more_input(rt, s, block)? else {
            finish(s, block, memory, &mut quads, &mut bank, printout);
            let place = printout.output.place;
            return send(rt, printout.output.buffer, place);
        };
        s = converse(s, end, block, memory, &mut quads, &mut bank, printout);
        let place = printout.output.place;
        send(rt, printout.output.buffer, place)?;
    }
    Ok(())
}

// A conversation with the board whose memory is lent, until its input ends or a read or a write fails.
pub fn serve(rt: &HostRuntime, memory: &mut [u8]) {
    let mut block = [0u8; BLOCK];
    let mut buffer = [0u8; ROOM];
    let mut printout = Printer {
        output: Writer {
            buffer: &mut buffer,
            place: 0,
        },
        tally: Tally::start(),
    };
    // What failed was reported.
    let _ = converse_all(rt, memory, &mut block, &mut printout);
}
