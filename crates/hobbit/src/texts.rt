// Parcels to an instruction's eight words and back (the crate hobbit_blocks says what they are).
ghost use Rattle.std.specs.Prelude.{◌≡◌};
ghost use Rattle.hobbit_blocks.specs.Calls.{call_answer, decoded_into, encoded_from};

use hobbit_blocks::{decode_into, encode_from};

// The instruction at the start of a text: 0 and its words, or a number that says why there is none and the words as they
// were.
pub fn hobbit_decode(parcels: &[u16], instruction: &mut [u32; 8]) -> u32
    ensures { call_answer result instruction.new ≡ decoded_into parcels.now instruction.old }
{
    decode_into(parcels, instruction)
}

// The parcels of an instruction at a length: 0 and six parcels, filled up with zeros, or 5 and the parcels as they were.
pub fn hobbit_encode(instruction: &[u32; 8], length: u32, parcels: &mut [u16; 6]) -> u32
    ensures { call_answer result parcels.new ≡ encoded_from instruction.now length parcels.old }
{
    encode_from(instruction, length, parcels)
}
