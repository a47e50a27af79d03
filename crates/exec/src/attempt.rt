// Fetch, decoding and execution, of both kinds of run.
ghost use Rattle.std.specs.Prelude.{◌≡◌, ℕ, ◌<◌};
ghost use Rattle.isa.specs.declared.MonadicMode.{MonadicMode};
ghost use Rattle.datapath.specs.Parts.{onward};
ghost use Rattle.exec_rows.specs.Rows.{action_of};
ghost use Rattle.step_pending.specs.Traces.{traced_from};
ghost use Rattle.exec_spec.specs.Execute.{one_operand, traced as traced_of};
ghost use Rattle.step_spec.specs.Step.{to_instruction, to_vector, dispatch};
ghost use Rattle.run_spec.specs.Run.{is_kcall};
ghost use Rattle.exec.specs.Code.{act_of, attempt_of, Attempts};

use crate::execute::execute;
use access_spec::Journal;
use datapath::text::fetch_text;
use decode::decode_text;
use exec_event_frames::sequences::unimplemented_sequence;
use exec_rows::Action;
use exec_rows::forms::action_of;
use exec_spec::Monadic;
use isa::{Decoded, Instruction, Undecoded};
use machine::{Bank, Quads};
use memory::answers::{EXCEPTION, low32, raised};
use memory::exceptions::ILLEGAL_INSTRUCTION;
use run_spec::{KCALL_CODE, UNIMPLEMENTED_CODE};
use step_pending::tracing::traced;

fn kcalls(o: Monadic) -> bool
    ensures { (k : MonadicMode) (v : ℕ) → result ≡ is_kcall (one_operand o k v) }
{
    match o {
        Monadic::Kcall => true,
        Monadic::Call => false,
        Monadic::Return => false,
        Monadic::Jmp => false,
        Monadic::JmpFalse => false,
        Monadic::JmpTrue => false,
        Monadic::Catch => false,
        Monadic::Enter => false,
        Monadic::Ldraa => false,
        Monadic::Flush => false,
        Monadic::Popn => false,
    }
}

fn is_kcall(a: Action) -> bool
    ensures { result ≡ is_kcall (action_of a) }
{
    match a {
        Action::Two(_, _, _, _) => false,
        Action::One(o, _, _) => kcalls(o),
        Action::Zero(_) => false,
    }
}

// What tracing makes of an instruction, as a number below 3.
fn class_of(a: Action) -> u64
    ensures { (traced_from result ≡ traced_of (action_of a)) × (result < 3) }
{
    let k = traced(a);
    if k < 2 { k as u64 } else { 2 }
}

// An instruction of n parcels executed, with what tracing makes of it.
fn act_on(
    m: &mut [u8],
    journal: &mut Journal,
    q: &mut Quads,
    r: &mut Bank,
    confined: bool,
    i: Instruction,
    n: u32,
) -> u64
    ensures { Attempts result m journal q r (λ c. act_of confined c (to_instruction i n)) }
{
    let a = action_of(i);
    let class = class_of(a);
    let stops = confined & is_kcall(a);
    if stops {
        return KCALL_CODE;
    }
    let x = execute(m, journal, q, r, n, a);
    if EXCEPTION <= x {
        return x;
    }
    class
}

// An unimplemented instruction or a trap, by its vector.
fn act_unimplemented(
    m: &mut [u8],
    journal: &mut Journal,
    q: &mut Quads,
    r: &mut Bank,
    confined: bool,
    vector: u32,
) -> u64
    ensures { Attempts result m journal q r (λ c. act_of confined c (to_vector vector)) }
{
    if confined {
        return UNIMPLEMENTED_CODE;
    }
    let x = unimplemented_sequence(m, journal, q, r, vector);
    if EXCEPTION <= x {
        return x;
    }
    3
}

// What the decoder answered.
fn act_on_answer(
    m: &mut [u8],
    journal: &mut Journal,
    q: &mut Quads,
    r: &mut Bank,
    confined: bool,
    a: Decoded,
) -> u64
    ensures { Attempts result m journal q r (λ c. onward (act_of confined c) (dispatch c a)) }
{
    match a {
        Ok((i, n)) => act_on(m, journal, q, r, confined, i, n),
        Err(Undecoded::Unimplemented(vector)) => {
            act_unimplemented(m, journal, q, r, confined, vector)
        }
        Err(Undecoded::Illegal | Undecoded::Truncated) => raised(ILLEGAL_INSTRUCTION),
    }
}

// The instruction at PC; a confined run stops at a KCALL or an unimplemented instruction that has only been fetched.
pub fn attempt(
    m: &mut [u8],
    journal: &mut Journal,
    q: &mut Quads,
    r: &mut Bank,
    confined: bool,
) -> u64
    ensures { Attempts result m journal q r (λ c. attempt_of confined c) }
{
    let f = fetch_text(m, journal, r);
    if f.fault != 0 {
        return raised(low32(f.fault));
    }
    act_on_answer(m, journal, q, r, confined, decode_text(f.text))
}
