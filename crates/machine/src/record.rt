// The machine record, converted once a run: the bank and the quad-words that the run works on, and back. Both at the start.
ghost use Rattle.std.specs.Prelude.{◌≡◌, length};
ghost use Rattle.machine.specs.Registers.{start_bank};
ghost use Rattle.machine.specs.Record.{due_word, is_due, bank_of, machine_of, zero_cache};

use crate::cache::flat;
use crate::places::{
    CONFIG, FAULT, ID, ISP, MSP, NMI_TAKEN, PC, PSW, SHAD, SP, STB, TIMER1, TIMER1_DUE, TIMER2,
    TIMER2_DUE, TRACE_DUE, VB,
};
use crate::{Bank, Machine, Quads};

// What is due, as a word of the bank.
pub fn due_word(due: bool) -> u32
    ensures { result ≡ due_word due }
{
    if due { 1 } else { 0 }
}

// Whether a word of the bank says that something is due.
pub fn is_due(w: u32) -> bool
    ensures { result ≡ is_due w }
{
    w == 1
}

// The registers and what is due, in one bank.
pub fn bank(m: Machine) -> Bank
    ensures { (result ≡ bank_of m) × (length result ≡ 17) }
{
    let r = m.registers;
    [
        r[CONFIG],
        r[FAULT],
        r[ID],
        r[ISP],
        r[MSP],
        r[PC],
        r[PSW],
        r[SHAD],
        r[SP],
        r[STB],
        r[TIMER1],
        r[TIMER2],
        r[VB],
        due_word(m.trace_due),
        due_word(m.timer1_due),
        due_word(m.timer2_due),
        due_word(m.nmi_taken),
    ]
}

// The machine of a bank and a cache.
pub fn machine_of(b: &Bank, q: &Quads) -> Machine
    ensures { result ≡ machine_of b.now q.now }
{
    let words = flat(q);
    Machine {
        registers: [
            b[CONFIG], b[FAULT], b[ID], b[ISP], b[MSP], b[PC], b[PSW], b[SHAD], b[SP], b[STB],
            b[TIMER1], b[TIMER2], b[VB],
        ],
        cache: words,
        trace_due: is_due(b[TRACE_DUE]),
        timer1_due: is_due(b[TIMER1_DUE]),
        timer2_due: is_due(b[TIMER2_DUE]),
        nmi_taken: is_due(b[NMI_TAKEN]),
    }
}

// The bank at the start: ID 0x0000003B, every other register 0, nothing due.
pub fn start_bank() -> Bank
    ensures { result ≡ start_bank }
{
    [0, 0, 0x3B, 0, 0, 0, 0, 0, 0, 0, 0, 0, 0, 0, 0, 0, 0]
}

// The quad-words at the start.
pub fn start_cache() -> Quads
    ensures { result ≡ zero_cache }
{
    [[0; 4]; 16]
}
