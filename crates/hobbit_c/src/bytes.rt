// The caller's memory.
ghost use Rattle.std.specs.Prelude.{◌≡◌};
ghost use Rattle.board_lines.specs.Stores.{store_result};
ghost use Rattle.hobbit.specs.Bytes.{stored_at, loaded_from};

#[unsafe(no_mangle)]
pub extern "C" fn hobbit_store(memory: &mut [u8], address: u32, bytes: &[u8]) -> u32
    ensures { store_result result memory.new ≡ stored_at memory.old address bytes.now }
{
    hobbit::bytes::hobbit_store(memory, address, bytes)
}

#[unsafe(no_mangle)]
pub extern "C" fn hobbit_load(memory: &[u8], address: u32, bytes: &mut [u8]) -> u32
    ensures { store_result result bytes.new ≡ loaded_from memory.now address bytes.old }
{
    hobbit::bytes::hobbit_load(memory, address, bytes)
}
