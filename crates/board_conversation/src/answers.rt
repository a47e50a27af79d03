// A line answered: bank, quad-words, memory and printout are changed where they stand.
ghost use Rattle.std.specs.Prelude.{◌≡◌};
ghost use Rattle.run_spec.specs.Run.{run as run_of};
ghost use Rattle.run_spec.specs.Boards.{entry_board};
ghost use Rattle.board_lines.specs.Printouts.{printout_of};
ghost use Rattle.board_conversation.specs.Conversation.{has_run, frame_answer};
ghost use Rattle.board_conversation.specs.Code.{printed_on, entry_io, exit_io};
ghost use Rattle.board_conversation.specs.Blocks.{is_long_run, line_answered, answered_unless};

use board_lines::frames::parse;
use board_lines::stores::store;
use board_lines::{Frame, Printer};
use machine::assign::set_register;
use machine::places::{PC, PSW};
use machine::{Bank, Quads};
use refusals::Refusal;
use run::running::run_lent;

// Frames 03 and 04.
#[tactic(auto, using(crate::proofs::AnswerLaws::run_answered))]
fn answer_run(
    m: &mut [u8],
    q: &mut Quads,
    r: &mut Bank,
    confined: bool,
    budget: u32,
    level: u32,
    printout: &mut Printer,
)
    ensures lent { printout.new.output.buffer.ghost_name ≡ printout.old.output.buffer.ghost_name }
    ensures text { exit_io m q r printout ≡ printed_on (has_run (run_of confined budget level (entry_board m q r))) (printout_of printout.old) }
{
    let e = run_lent(m, q, r, confined, budget, level);
    printout.put_ran(e.steps, e.stop, e.code, r[PC], r[PSW]);
}

// A line by its frame.
fn answer_frame(
    line: &[u8],
    frame: Option<Frame>,
    number: u32,
    m: &mut [u8],
    q: &mut Quads,
    r: &mut Bank,
    printout: &mut Printer,
)
    ensures lent { printout.new.output.buffer.ghost_name ≡ printout.old.output.buffer.ghost_name }
    ensures text { exit_io m q r printout ≡ printed_on (frame_answer number line.now (entry_board m q r) frame) (printout_of printout.old) }
{
    match frame {
        Some(Frame::Set(place, value)) => {
            printout.put_unless_done(number, set_register(r, place, value));
        }
        Some(Frame::Store(address)) => printout.put_unless_done(number, store(line, m, address)),
        Some(Frame::Run(budget, level)) => answer_run(m, q, r, false, budget, level, printout),
        Some(Frame::Confined(budget, level)) => answer_run(m, q, r, true, budget, level, printout),
        None => printout.put_refused(Refusal::MalformedLine.number(), number),
    }
}

// A run before which the answers that are there are written.
const MANY_STEPS: u32 = 4096;

fn is_long_run(frame: Option<Frame>) -> bool
    ensures { result ≡ is_long_run frame }
{
    matches!(frame, Some(Frame::Run(budget, _) | Frame::Confined(budget, _)) if MANY_STEPS <= budget)
}

// One line, or whether it waits: a long run does where others have begun.
#[tactic(auto, using(crate::proofs::AnswerLaws::line_waits, crate::proofs::AnswerLaws::line_answered_law))]
pub fn answer_line(
    line: &[u8],
    begun: bool,
    number: u32,
    m: &mut [u8],
    q: &mut Quads,
    r: &mut Bank,
    printout: &mut Printer,
) -> bool
    ensures lent { printout.new.output.buffer.ghost_name ≡ printout.old.output.buffer.ghost_name }
    ensures text { line_answered (exit_io m q r printout) result ≡ answered_unless begun number line.now (entry_io m q r printout) }
{
    let frame = parse(line);
    let waits = begun && is_long_run(frame);
    if !waits {
        answer_frame(line, frame, number, m, q, r, printout);
    }
    waits
}
