// A run: its refusals, its turns under a budget, its answer.
ghost use Rattle.std.specs.Prelude.{◌≡◌, ◌%◌, length};
ghost use Rattle.machine.specs.Cache.{Cache};
ghost use Rattle.machine.specs.Status.{cpu};
ghost use Rattle.machine.specs.Record.{cpu_of};
ghost use Rattle.run_spec.specs.Run.{board, turn_of, advance as advance_of, refusal as refusal_of, run as run_of};
ghost use Rattle.run_spec.specs.Stopping.{stopped_at};
ghost use Rattle.run_spec.specs.Boards.{entry_board, exit_board};
ghost use Rattle.run.specs.Code.{run_result_of, step_result_of, one_step};

use crate::turns::{STOP, take_turn};
use access_spec::JOURNAL_WORDS;
use machine::cache::quads;
use machine::record::{bank, machine_of};
use machine::registers::good_bank;
use machine::status::{is_user, is_virtual};
use machine::{Bank, Machine, Quads};
use memory::places::whole_pages;
use run_spec::Stopped;

// Stops of a run.
const BUDGET_SPENT: u32 = 0;

const REFUSED: u32 = 1;

// The refusals of a run.
const MEMORY_SIZE: u32 = 1;

const REGISTER_REFUSED: u32 = 2;

const LEVEL_REFUSED: u32 = 3;

const LEVEL_NOT_USER: u32 = 9;

// The interrupt inputs are three lines.
const MOST_LEVEL: u32 = 7;

// Steps done, the stop and its code, with the machine that is left.
#[derive(Clone, Copy)]
pub struct Ran {
    pub machine: Machine,
    pub steps: u32,
    pub stop: u32,
    pub code: u32,
}

// The machine after one step; 0, or the refusal that left it as it was.
#[derive(Clone, Copy)]
pub struct SteppedMachine {
    pub machine: Machine,
    pub refusal: u32,
}

// Turns until one stops or the budget is spent, which is looked at before any event.
fn advance(
    m: &mut [u8],
    q: &mut Quads,
    r: &mut Bank,
    confined: bool,
    budget: u32,
    level: u32,
) -> Stopped
    requires { length m.old % 4 ≡ 0 }
    ensures { stopped_at result (exit_board m q r) ≡ advance_of (turn_of confined level) 0 budget (entry_board m q r) }
{
    let mut journal = [0u64; JOURNAL_WORDS];
    let mut n = 0;
    while n < budget {
        let x = take_turn(m, &mut journal, q, r, confined, level);
        if x != 0 {
            return Stopped {
                steps: n,
                stop: (x / STOP) as u32,
                code: (x % STOP) as u32,
            };
        }
        n = n + 1;
    }
    Stopped {
        steps: n,
        stop: BUDGET_SPENT,
        code: 0,
    }
}

// The refusals 1, 2, 3 and 9 in this order; 0 is none.
fn refusal(m: &[u8], r: &Bank, confined: bool, level: u32) -> u32
    ensures { (q : Cache) → result ≡ refusal_of confined level (board (cpu r.now q) m.now) }
{
    if !whole_pages(m.len()) {
        return MEMORY_SIZE;
    }
    if !good_bank(r) {
        return REGISTER_REFUSED;
    }
    if MOST_LEVEL < level {
        return LEVEL_REFUSED;
    }
    if confined & !(is_user(r) & is_virtual(r)) {
        return LEVEL_NOT_USER;
    }
    0
}

// A run of a lent machine and memory: kind 03, which takes events, or kind 04, confined.
pub fn run_lent(
    m: &mut [u8],
    q: &mut Quads,
    r: &mut Bank,
    confined: bool,
    budget: u32,
    level: u32,
) -> Stopped
    ensures { stopped_at result (exit_board m q r) ≡ run_of confined budget level (entry_board m q r) }
{
    let e = refusal(m, r, confined, level);
    if e != 0 {
        return Stopped {
            steps: 0,
            stop: REFUSED,
            code: e,
        };
    }
    // No turn is taken, so no journal is made for one.
    if budget == 0 {
        return Stopped {
            steps: 0,
            stop: BUDGET_SPENT,
            code: 0,
        };
    }
    advance(m, q, r, confined, budget, level)
}

// The same of a machine by value.
pub fn run(m: &mut [u8], begun: Machine, confined: bool, budget: u32, level: u32) -> Ran
    ensures { run_result_of result m.new ≡ run_of confined budget level (board (cpu_of begun) m.old) }
{
    let mut r = bank(begun);
    let words = begun.cache;
    let mut q = quads(words);
    let x = run_lent(m, &mut q, &mut r, confined, budget, level);
    Ran {
        machine: machine_of(&r, &q),
        steps: x.steps,
        stop: x.stop,
        code: x.code,
    }
}

// One step of a machine on a lent memory, events taken: a run of budget 1.
pub fn step(begun: Machine, m: &mut [u8], level: u32) -> SteppedMachine
    ensures { step_result_of result.refusal result.machine m.new ≡ one_step level (board (cpu_of begun) m.old) }
{
    let x = run(m, begun, false, 1, level);
    let left = x.machine;
    SteppedMachine {
        machine: left,
        refusal: x.code,
    }
}
