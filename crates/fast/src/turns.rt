// A turn of either kind of run in which nothing is due, no trace falls due and the stack is kept: a step, and its timers.
ghost use Rattle.std.specs.Prelude.{◌≡◌, Bool, true};
ghost use Rattle.access_spec.specs.Clauses.{IfElse};
ghost use Rattle.run_spec.specs.Run.{goes, turn_of};
ghost use Rattle.run_spec.specs.Boards.{entry_board, exit_board};
ghost use Rattle.fast_dyadic.specs.Clauses.{AllUnchanged};
ghost use Rattle.fast.specs.Performed.{NoEventPending};

use crate::instructions::fast_attempt;
use machine::bits::{TRACE_BASIC_BLOCK, TRACE_INSTRUCTION};
use machine::places::{CONFIG, MSP, NMI_TAKEN, PSW, SP};
use machine::registers::stack_held;
use machine::status::is_user;
use machine::{Bank, Quads};
use step_pending::events::due_code;
use step_pending::timers::counted;
use word::fields::bit;

// Whether a look changes nothing and finds nothing due, no instruction is traced, and the stack is held.
fn no_event_pending(r: &Bank, level: u32) -> bool
    ensures { result ≡ true → NoEventPending level r.now }
{
    if level == 0 {
        return false;
    }
    if r[NMI_TAKEN] != 0 {
        return false;
    }
    if bit(r[PSW], TRACE_INSTRUCTION) | bit(r[PSW], TRACE_BASIC_BLOCK) {
        return false;
    }
    if !stack_held(r[SP], r[MSP]) {
        return false;
    }
    if due_code(r, level) != 0 {
        return false;
    }
    true
}

// The turn, if it goes this way.
pub fn fast_turn(m: &mut [u8], q: &mut Quads, r: &mut Bank, level: u32) -> bool
    ensures { IfElse result ((confined : Bool) → turn_of confined level (entry_board m q r) ≡ goes (exit_board m q r)) (AllUnchanged m q r) }
{
    if !no_event_pending(r, level) {
        return false;
    }
    let config = r[CONFIG];
    let kernel = !is_user(r);
    let instruction_done = fast_attempt(m, q, r);
    if !instruction_done {
        return false;
    }
    counted(r, config, kernel, true);
    true
}
