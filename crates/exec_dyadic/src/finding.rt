// The operands of an instruction before it computes: the source's value, the destination's place and its value. A
// contract says what any rest of an instruction gives after them.
ghost use Rattle.std.specs.Prelude.{ℕ};
ghost use Rattle.access_spec.specs.Clauses.{only_read};
ghost use Rattle.access_spec.specs.Program.{Program};
ghost use Rattle.machine.specs.Status.{Cpu};
ghost use Rattle.datapath.specs.Parts.{Out};
ghost use Rattle.exec_spec.specs.Operands.{Place};
ghost use Rattle.exec_operands.specs.Code.{place_at, Resumes};
ghost use Rattle.exec_spec.specs.Dyadic.{with_operands};
ghost use Rattle.exec_dyadic.specs.Code.{finding};

use access_spec::Journal;
use exec_operands::places::{locate_at, read_at, read_operand};
use isa::{Operand, Wide};
use machine::{Bank, Quads};
use memory::answers::{EXCEPTION, low32};

// The destination's address or an exception, and the source's value.
#[derive(Clone, Copy)]
pub struct Found {
    pub answer: u64,
    pub source: u32,
}

// The destination's value or an exception, the source's value, and the destination's address.
#[derive(Clone, Copy)]
pub struct Both {
    pub answer: u64,
    pub source: u32,
    pub address: u32,
}

// The source is read, then the destination found.
pub fn find(
    m: &mut [u8],
    journal: &mut Journal,
    q: &Quads,
    r: &mut Bank,
    wide: Wide,
    s: Operand,
    d: Operand,
) -> Found
    ensures { Resumes (ℕ → Place → Program (Out Cpu)) result.answer m journal (only_read q) r
        (λ f a. f result.source (place_at d a)) (λ c f. finding c wide s d f) }
{
    let x = read_operand(m, journal, q, r, wide, s);
    if EXCEPTION <= x {
        Found {
            answer: x,
            source: 0,
        }
    } else {
        let a = locate_at(m, journal, q, r, wide, d);
        Found {
            answer: a,
            source: low32(x),
        }
    }
}

// And the destination is read.
pub fn read_both(
    m: &mut [u8],
    journal: &mut Journal,
    q: &Quads,
    r: &mut Bank,
    wide: Wide,
    s: Operand,
    d: Operand,
) -> Both
    ensures { Resumes (ℕ → Place → ℕ → Program (Out Cpu)) result.answer m journal (only_read q) r
        (λ f y. f result.source (place_at d result.address) y) (λ c f. with_operands c wide s d f) }
{
    let f = find(m, journal, q, r, wide, s, d);
    if EXCEPTION <= f.answer {
        Both {
            answer: f.answer,
            source: 0,
            address: 0,
        }
    } else {
        let a = low32(f.answer);
        let y = read_at(m, journal, q, r, d, a);
        Both {
            answer: y,
            source: f.source,
            address: a,
        }
    }
}
