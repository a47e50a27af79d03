// Both timers, counted after a step.
ghost use Rattle.std.specs.Prelude.{◌≡◌};
ghost use Rattle.machine.specs.Registers.{timer1, timer2, timer1_due, timer2_due};
ghost use Rattle.datapath.specs.Clauses.{Becomes};
ghost use Rattle.step_spec.specs.Timers.{counts1 as counts1_of, counts2 as counts2_of, ticked, counted as counted_of, first_counted, second_counted};

use machine::Bank;
use machine::bits::{
    TIMER1_INSTRUCTIONS, TIMER1_INTERRUPT, TIMER1_KERNEL, TIMER2_EVENT, TIMER2_EVENT_BITS,
    TIMER2_INTERRUPT, TIMER2_KERNEL,
};
use machine::places::{TIMER1, TIMER1_DUE, TIMER2, TIMER2_DUE};
use word::fields::{bit, field};
use word::sums::plus;

// Table 1-2: what Timer2 counts, by its event.
const CLOCKS: u32 = 0;

const INSTRUCTIONS: u32 = 1;

// Whether each timer counts a step (Table 1-2), by the CONFIG and the level it began with.
fn counts1(config: u32, kernel: bool, completed: bool) -> bool
    ensures { result ≡ counts1_of config kernel completed }
{
    (!bit(config, TIMER1_KERNEL) | kernel) & (!bit(config, TIMER1_INSTRUCTIONS) | completed)
}

fn counts2(config: u32, kernel: bool, completed: bool) -> bool
    ensures { result ≡ counts2_of config kernel completed }
{
    let event = field(config, TIMER2_EVENT, TIMER2_EVENT_BITS);
    (!bit(config, TIMER2_KERNEL) | kernel)
        & ((event == CLOCKS) | ((event == INSTRUCTIONS) & completed))
}

// Timer1 by one; on says whether its interrupt is.
fn tick1(b: &mut Bank, on: bool)
    ensures { Becomes b (λ c. ticked c timer1 timer1_due on) }
{
    let n = plus(b[TIMER1], 1);
    b[TIMER1] = n;
    if (n == 0) & on {
        b[TIMER1_DUE] = 1;
    }
}

// Timer2 by one.
fn tick2(b: &mut Bank, on: bool)
    ensures { Becomes b (λ c. ticked c timer2 timer2_due on) }
{
    let n = plus(b[TIMER2], 1);
    b[TIMER2] = n;
    if (n == 0) & on {
        b[TIMER2_DUE] = 1;
    }
}

// Timer1, if it counts the step.
fn count1(b: &mut Bank, config: u32, kernel: bool, completed: bool)
    ensures { Becomes b (first_counted config kernel completed) }
{
    if counts1(config, kernel, completed) {
        tick1(b, bit(config, TIMER1_INTERRUPT));
    }
}

// Timer2, if it counts the step.
fn count2(b: &mut Bank, config: u32, kernel: bool, completed: bool)
    ensures { Becomes b (second_counted config kernel completed) }
{
    if counts2(config, kernel, completed) {
        tick2(b, bit(config, TIMER2_INTERRUPT));
    }
}

// Both, by the CONFIG and the level that the step began with.
pub fn counted(b: &mut Bank, config: u32, kernel: bool, completed: bool)
    ensures { Becomes b (counted_of config kernel completed) }
{
    count1(b, config, kernel, completed);
    count2(b, config, kernel, completed);
}
