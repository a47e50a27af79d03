// Bytes into and out of the caller's memory, for callers that want the board's refusal.
// The two calls differ in the side that is written. By loops, since `copy_from_slice` would have a C program bring `memmove`,
// which the library needs nowhere else.
ghost use Rattle.std.specs.Prelude.{◌≡◌, ◌+◌, ◌≤◌, length, take, drop};
ghost use Rattle.hex_digits.specs.Output.{written};
ghost use Rattle.board_lines.specs.Stores.{store_result};
ghost use Rattle.hobbit.specs.Bytes.{stored_at, loaded_from};

use refusals::Refusal;

#[tactic(auto, using(crate::proofs::ByteLaws::copied_none, crate::proofs::ByteLaws::copied_more, crate::proofs::ByteLaws::copied_all))]
fn copy_in(memory: &mut [u8], start: usize, bytes: &[u8])
    requires { start + length bytes.now ≤ length memory.old }
    ensures { memory.new ≡ written memory.old start bytes.now }
{
    for k in 0..bytes.len() {
        memory[start + k] = bytes[k];
    }
}

#[tactic(auto, using(crate::proofs::ByteLaws::loaded_more, crate::proofs::ByteLaws::loaded_all))]
fn copy_out(memory: &[u8], start: usize, bytes: &mut [u8])
    requires { start + length bytes.old ≤ length memory.now }
    ensures { bytes.new ≡ take (length bytes.old) (drop start memory.now) }
{
    for k in 0..bytes.len() {
        bytes[k] = memory[start + k];
    }
}

// Bytes from an address on: 0, or 8 where they reach past the end, and memory as it was.
#[tactic(auto, using(crate::proofs::ByteLaws::store_done, crate::proofs::ByteLaws::store_past))]
pub fn hobbit_store(memory: &mut [u8], address: u32, bytes: &[u8]) -> u32
    ensures { store_result result memory.new ≡ stored_at memory.old address bytes.now }
{
    let start = address as usize;
    if memory.len() < start + bytes.len() {
        return Refusal::OutsideMemory.number();
    }
    copy_in(memory, start, bytes);
    0
}

// As many bytes as there is room for, from an address on: 0, or 8 where they reach past the end, and the room as it was.
#[tactic(auto, using(crate::proofs::ByteLaws::load_done, crate::proofs::ByteLaws::load_past))]
pub fn hobbit_load(memory: &[u8], address: u32, bytes: &mut [u8]) -> u32
    ensures { store_result result bytes.new ≡ loaded_from memory.now address bytes.old }
{
    let start = address as usize;
    if memory.len() < start + bytes.len() {
        return Refusal::OutsideMemory.number();
    }
    copy_out(memory, start, bytes);
    0
}
