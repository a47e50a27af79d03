// What tracing makes of an instruction (Table 1-8).
ghost use Rattle.std.specs.Prelude.{◌≡◌};
ghost use Rattle.exec_spec.specs.Execute.{monadic_traced, niladic_traced, traced as traced_of};
ghost use Rattle.step_spec.specs.Step.{traces_at};
ghost use Rattle.exec_rows.specs.Rows.{action_of};
ghost use Rattle.step_pending.specs.Traces.{traced_from};

use exec_rows::Action;
use exec_spec::{Monadic, Niladic};
use machine::bits::{TRACE_BASIC_BLOCK, TRACE_INSTRUCTION};
use word::fields::bit;

// Traced by PSW bit 7; by bit 7 or 8, since it may jump; never.
const ALWAYS: u32 = 0;

const AT_JUMPS: u32 = 1;

const NEVER: u32 = 2;

fn monadic_traced(o: Monadic) -> u32
    ensures { traced_from result ≡ monadic_traced o }
{
    match o {
        Monadic::Kcall => NEVER,
        Monadic::Call => AT_JUMPS,
        Monadic::Return => AT_JUMPS,
        Monadic::Jmp => AT_JUMPS,
        Monadic::JmpFalse => AT_JUMPS,
        Monadic::JmpTrue => AT_JUMPS,
        Monadic::Catch => ALWAYS,
        Monadic::Enter => ALWAYS,
        Monadic::Ldraa => ALWAYS,
        Monadic::Flush => ALWAYS,
        Monadic::Popn => ALWAYS,
    }
}

fn niladic_traced(o: Niladic) -> u32
    ensures { traced_from result ≡ niladic_traced o }
{
    match o {
        Niladic::Kret => NEVER,
        Niladic::Cret => NEVER,
        Niladic::Nop => ALWAYS,
        Niladic::Testv => ALWAYS,
        Niladic::Testc => ALWAYS,
        Niladic::Clre => ALWAYS,
    }
}

// An instruction by what it does.
pub fn traced(a: Action) -> u32
    ensures { traced_from result ≡ traced_of (action_of a) }
{
    match a {
        Action::Two(_, _, _, _) => ALWAYS,
        Action::One(o, _, _) => monadic_traced(o),
        Action::Zero(o) => niladic_traced(o),
    }
}

// Whether a trace falls due after an instruction that began with a PSW.
pub fn traces_at(psw: u32, class: u32) -> bool
    ensures { result ≡ traces_at psw (traced_from class) }
{
    if class == ALWAYS {
        bit(psw, TRACE_INSTRUCTION)
    } else {
        if class == AT_JUMPS {
            bit(psw, TRACE_INSTRUCTION) | bit(psw, TRACE_BASIC_BLOCK)
        } else {
            false
        }
    }
}
