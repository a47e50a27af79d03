#![tactic(auto)]
// What the C interface's symbols call (the crate hobbit_c), over memory and blocks of words that the caller lends;
// include/hobbit.h says what each does. Refusals are numbers, and answers blocks and plain structs, since C has no Result.
// Here: the machine; in `bytes` its memory; in `texts` decoding and encoding.
pub mod bytes;
pub mod texts;

ghost use Rattle.std.specs.Prelude.{◌≡◌};
ghost use Rattle.machine.specs.Registers.{start_bank, setting, set_register};
ghost use Rattle.machine.specs.Cache.{quads_of};
ghost use Rattle.machine.specs.Status.{cpu};
ghost use Rattle.machine.specs.Record.{zero_cache, reading_of};
ghost use Rattle.run_spec.specs.Run.{run as run_of};
ghost use Rattle.run.specs.Code.{one_step};
ghost use Rattle.hobbit.specs.Blocks.{interface, run_answer, run_answer_of, step_answer, step_answer_of, exit_blocks, entry_board_in, word_of};

use machine::assign::{read_register, set_register};
use machine::cache::{flat, quads};
use machine::record::start_bank;
use run::running::run_lent;

const INTERFACE: u32 = 2;

// The number of this interface: the header's HOBBIT_INTERFACE.
pub fn hobbit_interface() -> u32
    ensures { result ≡ interface }
{
    INTERFACE
}

// What an 83 line carries but PC and PSW, which are words of the registers.
#[repr(C)]
#[derive(Clone, Copy)]
pub struct HobbitAnswer {
    pub steps: u32,
    pub stop: u32,
    pub code: u32,
}

// A run: kind 03, or confined, kind 04.
pub fn hobbit_run(
    memory: &mut [u8],
    registers: &mut [u32; 17],
    cache: &mut [u32; 64],
    confined: bool,
    budget: u32,
    level: u32,
) -> HobbitAnswer
    ensures { run_answer result (exit_blocks registers cache memory)
        ≡ run_answer_of (run_of confined budget level (entry_board_in registers cache memory)) }
{
    let mut q = quads(*cache);
    let x = run_lent(memory, &mut q, registers, confined, budget, level);
    *cache = flat(&q);
    HobbitAnswer {
        steps: x.steps,
        stop: x.stop,
        code: x.code,
    }
}

// One step, events taken: 0, or the refusal that left all as it was.
pub fn hobbit_step(
    memory: &mut [u8],
    registers: &mut [u32; 17],
    cache: &mut [u32; 64],
    level: u32,
) -> u32
    ensures { step_answer result (exit_blocks registers cache memory) ≡ step_answer_of (one_step level (entry_board_in registers cache memory)) }
{
    let mut q = quads(*cache);
    let x = run_lent(memory, &mut q, registers, false, 1, level);
    *cache = flat(&q);
    x.code
}

// The blocks at the start: ID 0x0000003B, every other word 0.
pub fn hobbit_start(registers: &mut [u32; 17], cache: &mut [u32; 64])
    ensures { cpu registers.new (quads_of cache.new) ≡ cpu start_bank zero_cache }
{
    *registers = start_bank();
    *cache = [0; 64];
}

// The register at a place of Table 1-1 set to a word: 0, or refusal 2 and the registers as they were.
pub fn hobbit_set(registers: &mut [u32; 17], place: u32, value: u32) -> u32
    ensures { setting result registers.new ≡ set_register registers.old place value }
{
    match set_register(registers, place, value) {
        Ok(()) => 0,
        Err(refusal) => refusal.number(),
    }
}

// A register read: 0 and its word, or refusal 2 and 0.
#[repr(C)]
#[derive(Clone, Copy)]
pub struct HobbitWord {
    pub refusal: u32,
    pub value: u32,
}

// The register at a place of Table 1-1.
pub fn hobbit_get(registers: &[u32; 17], place: u32) -> HobbitWord
    ensures { result ≡ word_of (reading_of registers.now place) }
{
    match read_register(registers, place) {
        Ok(value) => HobbitWord { refusal: 0, value },
        Err(refusal) => HobbitWord {
            refusal: refusal.number(),
            value: 0,
        },
    }
}
