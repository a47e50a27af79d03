// One turn of a run: a step, or a stop. The journal holds what a step that loses its stack must put back; the lengths
// required are those of the run's own journal and of whole pages.
ghost use Rattle.std.specs.Prelude.{◌≡◌, not, ◌%◌, length};
ghost use Rattle.access_spec.specs.Clauses.{only_read};
ghost use Rattle.memory.specs.Answers.{answer_of};
ghost use Rattle.memory.specs.Bytes.{Memory};
ghost use Rattle.access_spec.specs.Journal.{journal_words, undo as undo_of};
ghost use Rattle.machine.specs.Registers.{word, config};
ghost use Rattle.machine.specs.Status.{is_user};
ghost use Rattle.datapath.specs.Clauses.{entry_cpu, exit_cpu, Becomes};
ghost use Rattle.step_spec.specs.Events.{looked as looked_of};
ghost use Rattle.step_spec.specs.Timers.{counted as counted_of};
ghost use Rattle.step_spec.specs.Step.{holds_stack};
ghost use Rattle.run_spec.specs.Run.{board, if_stack_held, turn as turn_for, confined_turn, turn_of};
ghost use Rattle.run_spec.specs.Boards.{entry_board, exit_board};
ghost use Rattle.exec.specs.Code.{confined_out};
ghost use Rattle.run.specs.Code.{turned, attempt_ended};

use access::journal::{begin, undo};
use access_spec::Journal;
use exec::attempt::attempt;
use fast::turns::fast_turn;
use machine::places::{CONFIG, MSP, PSW, SP};
use machine::registers::stack_held;
use machine::status::is_user;
use machine::{Bank, Quads};
use memory::answers::{EXCEPTION, low32};
use step::stepping::step;
use step_pending::events::{due_code, looked, trace_falls};
use step_pending::timers::counted;
use step_pending::tracing::traces_at;

// A turn that stops answers its stop times this, and its code; 0 goes on.
pub(crate) const STOP: u64 = 0x1_0000_0000;

// An attempt that answers less has finished its instruction; the answer says what tracing makes of it.
const FINISHED: u64 = 3;

// Stop 01 with refusal 4, and stop 02.
const REFUSED_STACK: u64 = STOP + 4;

const EVENT_DUE: u64 = 2 * STOP;

// A turn that would end with x; one that loses its stack is refused with number 4 and leaves what was before it.
fn judge(
    m: &mut [u8],
    journal: &Journal,
    q: &mut Quads,
    r: &mut Bank,
    bank: &Bank,
    cache: &Quads,
    x: u64,
) -> u64
    ensures { turned result (exit_board m q r)
        ≡ if_stack_held (holds_stack (entry_cpu q r)) (board (entry_cpu (only_read cache) (only_read bank)) (undo_of journal.now m.old))
        (turned x (entry_board m q r)) }
{
    if stack_held(r[SP], r[MSP]) {
        return x;
    }
    undo(m, journal);
    *r = *bank;
    *q = *cache;
    REFUSED_STACK
}

// The timers, by the CONFIG and the level that the turn began with.
fn count_turn(r: &mut Bank, bank: &Bank, completed: bool)
    ensures { Becomes r (counted_of (word bank.now config) (not (is_user bank.now)) completed) }
{
    let config = bank[CONFIG];
    counted(r, config, !is_user(bank), completed);
}

// Kind 03: events are taken.
fn turn(m: &mut [u8], journal: &mut Journal, q: &mut Quads, r: &mut Bank, level: u32) -> u64
    requires { (length m.old % 4 ≡ 0) × (length journal.old ≡ journal_words) }
    ensures { (turned result (exit_board m q r) ≡ turn_for level (entry_board m q r)) × (length journal.new ≡ journal_words) }
{
    let bank = *r;
    let cache = *q;
    begin(journal);
    let completed = step(m, journal, q, r, level);
    count_turn(r, &bank, completed);
    judge(m, journal, q, r, &bank, &cache, 0)
}

// What a confined turn leaves whose attempt answered x, and how it ends if the stack holds. An instruction that has only
// been fetched leaves what the look left.
fn end_attempt(q: &mut Quads, r: &mut Bank, bank: &Bank, cache: &Quads, level: u32, x: u64) -> u64
    ensures { (m : Memory) → turned result (board (exit_cpu q r) m)
        ≡ attempt_ended (entry_cpu (only_read cache) (only_read bank)) (looked_of level (entry_cpu (only_read cache) (only_read bank))) (confined_out (answer_of x) r.old q.old) m }
{
    if x < FINISHED {
        trace_falls(r, traces_at(bank[PSW], low32(x)));
        count_turn(r, bank, true);
        return 0;
    }
    if EXCEPTION <= x {
        return EVENT_DUE + low32(x) as u64;
    }
    *r = *bank;
    *q = *cache;
    looked(r, level);
    EVENT_DUE + x
}

// Kind 04: before the first event sequence.
fn confined_turn(
    m: &mut [u8],
    journal: &mut Journal,
    q: &mut Quads,
    r: &mut Bank,
    level: u32,
) -> u64
    requires { (length m.old % 4 ≡ 0) × (length journal.old ≡ journal_words) }
    ensures { (turned result (exit_board m q r) ≡ confined_turn level (entry_board m q r)) × (length journal.new ≡ journal_words) }
{
    let bank = *r;
    let cache = *q;
    begin(journal);
    looked(r, level);
    let due = due_code(r, level);
    if due != 0 {
        return EVENT_DUE + due as u64;
    }
    let x = attempt(m, journal, q, r, true);
    let y = end_attempt(q, r, &bank, &cache, level, x);
    judge(m, journal, q, r, &bank, &cache, y)
}

// A turn of either kind: the fast way where that goes, else with all that may have to be put back.
pub(crate) fn take_turn(
    m: &mut [u8],
    journal: &mut Journal,
    q: &mut Quads,
    r: &mut Bank,
    confined: bool,
    level: u32,
) -> u64
    requires { (length m.old % 4 ≡ 0) × (length journal.old ≡ journal_words) }
    ensures { (turned result (exit_board m q r) ≡ turn_of confined level (entry_board m q r)) × (length journal.new ≡ journal_words) }
{
    if fast_turn(m, q, r, level) {
        return 0;
    }
    if confined {
        confined_turn(m, journal, q, r, level)
    } else {
        turn(m, journal, q, r, level)
    }
}
