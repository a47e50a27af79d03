// Decoding and encoding.
ghost use Rattle.std.specs.Prelude.{◌≡◌};
ghost use Rattle.hobbit_blocks.specs.Calls.{call_answer, decoded_into, encoded_from};

#[unsafe(no_mangle)]
pub extern "C" fn hobbit_decode(parcels: &[u16], instruction: &mut [u32; 8]) -> u32
    ensures { call_answer result instruction.new ≡ decoded_into parcels.now instruction.old }
{
    hobbit::texts::hobbit_decode(parcels, instruction)
}

#[unsafe(no_mangle)]
pub extern "C" fn hobbit_encode(instruction: &[u32; 8], length: u32, parcels: &mut [u16; 6]) -> u32
    ensures { call_answer result parcels.new ≡ encoded_from instruction.now length parcels.old }
{
    hobbit::texts::hobbit_encode(instruction, length, parcels)
}
