// The instruction at PC, by its plan.
ghost use Rattle.access_spec.specs.Clauses.{IfElse};
ghost use Rattle.datapath.specs.Clauses.{entry_cpu, exit_cpu};
ghost use Rattle.fast_dyadic.specs.Clauses.{AllUnchanged};
ghost use Rattle.fast.specs.Performed.{Executed, Performed};

use crate::flow::fast_one;
use crate::texts::{parcel, plan_at, text_place};
use access::NOWHERE;
use fast_decode::Plan;
use fast_dyadic::two::fast_two;
use isa::CPU_PREFIX;
use machine::places::PC;
use machine::{Bank, Quads};

// A plan, by its length.
fn perform(m: &mut [u8], q: &mut Quads, r: &mut Bank, plan: Plan) -> bool
    ensures { IfElse result (Executed plan (entry_cpu q r) m.old (exit_cpu q r) m.new) (AllUnchanged m q r) }
{
    match plan {
        Plan::Two(n, wide, t, a, s, b, d) => fast_two(m, q, r, n, wide, t, a, s, b, d),
        Plan::One(n, o, mode, v) => fast_one(m, q, r, o, mode, v, n),
        Plan::Other => false,
    }
}

// The instruction at PC, unless a prefix stands there.
pub(crate) fn fast_attempt(m: &mut [u8], q: &mut Quads, r: &mut Bank) -> bool
    ensures { IfElse result (Performed (entry_cpu q r) m.old (exit_cpu q r) m.new) (AllUnchanged m q r) }
{
    let pc = r[PC];
    let x = text_place(m, r, pc);
    if NOWHERE <= x {
        return false;
    }
    let i = x as usize;
    let p = parcel(m, i);
    if p == CPU_PREFIX {
        return false;
    }
    let plan = plan_at(m, i, p);
    perform(m, q, r, plan)
}
