// The machine.
ghost use Rattle.std.specs.Prelude.{◌≡◌};
ghost use Rattle.machine.specs.Registers.{start_bank, setting, set_register};
ghost use Rattle.machine.specs.Cache.{quads_of};
ghost use Rattle.machine.specs.Status.{cpu};
ghost use Rattle.machine.specs.Record.{zero_cache, reading_of};
ghost use Rattle.run_spec.specs.Run.{run as run_of};
ghost use Rattle.run.specs.Code.{one_step};
ghost use Rattle.hobbit.specs.Blocks.{interface, run_answer, run_answer_of, step_answer, step_answer_of, exit_blocks, entry_board_in, word_of};

use hobbit::{HobbitAnswer, HobbitWord};

#[unsafe(no_mangle)]
pub extern "C" fn hobbit_interface() -> u32
    ensures { result ≡ interface }
{
    hobbit::hobbit_interface()
}

#[unsafe(no_mangle)]
pub extern "C" fn hobbit_run(
    memory: &mut [u8],
    registers: &mut [u32; 17],
    cache: &mut [u32; 64],
    confined: bool,
    budget: u32,
    level: u32,
) -> HobbitAnswer
    ensures { run_answer result (exit_blocks registers cache memory)
        ≡ run_answer_of (run_of confined budget level (entry_board_in registers cache memory)) }
{
    hobbit::hobbit_run(memory, registers, cache, confined, budget, level)
}

#[unsafe(no_mangle)]
pub extern "C" fn hobbit_step(
    memory: &mut [u8],
    registers: &mut [u32; 17],
    cache: &mut [u32; 64],
    level: u32,
) -> u32
    ensures { step_answer result (exit_blocks registers cache memory) ≡ step_answer_of (one_step level (entry_board_in registers cache memory)) }
{
    hobbit::hobbit_step(memory, registers, cache, level)
}

#[unsafe(no_mangle)]
pub extern "C" fn hobbit_start(registers: &mut [u32; 17], cache: &mut [u32; 64])
    ensures { cpu registers.new (quads_of cache.new) ≡ cpu start_bank zero_cache }
{
    hobbit::hobbit_start(registers, cache);
}

#[unsafe(no_mangle)]
pub extern "C" fn hobbit_set(registers: &mut [u32; 17], place: u32, value: u32) -> u32
    ensures { setting result registers.new ≡ set_register registers.old place value }
{
    hobbit::hobbit_set(registers, place, value)
}

#[unsafe(no_mangle)]
pub extern "C" fn hobbit_get(registers: &[u32; 17], place: u32) -> HobbitWord
    ensures { result ≡ word_of (reading_of registers.now place) }
{
    hobbit::hobbit_get(registers, place)
}
