// Event sequences: interrupts, exceptions and unimplemented instructions (1.11).
ghost use Rattle.std.specs.Prelude.{cond};
ghost use Rattle.access_spec.specs.Clauses.{only_read};
ghost use Rattle.word.specs.declared.Width.TheVariants as width;
ghost use Rattle.machine.specs.Registers.{pc, sp};
ghost use Rattle.machine.specs.Status.{sp_current, reg};
ghost use Rattle.datapath.specs.Data.{write_data};
ghost use Rattle.datapath.specs.Clauses.{Ends, EndsAnyCache};
ghost use Rattle.exec_spec.specs.EventFrames.{interrupt_sequence, exception_sequence, store_pc, unimplemented_sequence};

use crate::pushes::{push_frame, push_pair, through_vector};
use access_spec::Journal;
use datapath::RESETS;
use datapath::data::{read_frame, write_frame};
use datapath::transfers::store;
use exec_registers::flow::{jumped, restored_csp};
use machine::places::{ISP, PC, SP, VB};
use machine::status::sp_current;
use machine::{Bank, Quads};
use memory::answers::{EXCEPTION, low32};
use word::Width;
use word::sums::plus;

// An interrupt through the vector at an offset.
pub fn interrupt_sequence(m: &mut [u8], journal: &mut Journal, r: &mut Bank, vector: u32) -> u64
    ensures { EndsAnyCache result m journal r (λ c. interrupt_sequence c vector) }
{
    let p = r[PC];
    restored_csp(r);
    let x = push_pair(m, journal, r, p);
    if EXCEPTION <= x {
        return x;
    }
    through_vector(m, journal, r, vector)
}

// Exception e.
pub fn exception_sequence(m: &mut [u8], journal: &mut Journal, r: &mut Bank, e: u32) -> u64
    ensures { EndsAnyCache result m journal r (λ c. exception_sequence c e) }
{
    let p = r[PC];
    restored_csp(r);
    let x = push_frame(m, journal, r, e, p);
    if EXCEPTION <= x {
        return x;
    }
    through_vector(m, journal, r, 4)
}

// PC at the interrupt stack pointer.
fn store_pc(m: &mut [u8], journal: &mut Journal, r: &Bank) -> u64
    ensures { EndsAnyCache result m journal (only_read r) store_pc }
{
    let i = r[ISP];
    let p = r[PC];
    let x = write_frame(m, journal, r, i, p);
    if EXCEPTION <= x {
        return RESETS;
    }
    x
}

// PC at the current stack pointer.
fn save_pc(m: &mut [u8], journal: &mut Journal, q: &mut Quads, r: &mut Bank) -> u64
    ensures { Ends result m journal q r (λ c. cond (sp_current c.bank) (write_data c width.Word (reg c sp) (reg c pc)) (store_pc c)) }
{
    if sp_current(r) {
        let s = r[SP];
        let p = r[PC];
        store(m, journal, q, r, Width::Word, s, p)
    } else {
        store_pc(m, journal, r)
    }
}

// An unimplemented instruction or a trapped niladic, by its vector.
pub fn unimplemented_sequence(
    m: &mut [u8],
    journal: &mut Journal,
    q: &mut Quads,
    r: &mut Bank,
    vector: u32,
) -> u64
    ensures { Ends result m journal q r (λ c. unimplemented_sequence c vector) }
{
    let x = save_pc(m, journal, q, r);
    if EXCEPTION <= x {
        return x;
    }
    let i = plus(r[VB], vector);
    let y = read_frame(m, journal, r, i);
    if EXCEPTION <= y {
        return RESETS;
    }
    let a = low32(y);
    jumped(r, a);
    y
}
