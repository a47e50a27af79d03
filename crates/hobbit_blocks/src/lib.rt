#![tactic(auto)]
// Instructions as blocks of eight words (specs/Numbering.antt), for callers that have no enumerations: parcels decoded into
// a block, and encoded from one.
mod blocks;
mod words;

ghost use Rattle.std.specs.Prelude.{◌≡◌};
ghost use Rattle.hobbit_blocks.specs.Calls.{call_answer, decoded_into, encoded_from};

use crate::blocks::block_of;
use crate::words::instruction_in;
use decode::decode;
use encode::encode;
use isa::Undecoded;

// The mode word of a register, after the sixteen modes of Table 1-21.
const REGISTER_MODE: u32 = 16;

// The refusals: no code, and a text that is cut short.
const NO_CODE: u32 = 5;

const CUT_TEXT: u32 = 6;

// What is no instruction: this, and an illegal one's exception or the offset of an unimplemented one's vector.
const NO_INSTRUCTION: u32 = 0x100;

const ILLEGAL: u32 = 0x3;

// 0 and the instruction in the block; else a number that says why not, and the block as it was. It is no `Result`, since the C
// interface hands the number on.
pub fn decode_into(parcels: &[u16], block: &mut [u32; 8]) -> u32
    ensures { call_answer result block.new ≡ decoded_into parcels.now block.old }
{
    match decode(parcels) {
        Ok((i, n)) => {
            *block = block_of(i, n);
            0
        }
        Err(Undecoded::Illegal) => NO_INSTRUCTION + ILLEGAL,
        Err(Undecoded::Unimplemented(v)) => NO_INSTRUCTION + v,
        Err(Undecoded::Truncated) => CUT_TEXT,
    }
}

// 0 and the parcels of the instruction in the block at a length in parcels, filled up with zeros; or 5 and the parcels as
// they were.
pub fn encode_from(block: &[u32; 8], length: u32, parcels: &mut [u16; 6]) -> u32
    ensures { call_answer result parcels.new ≡ encoded_from block.now length parcels.old }
{
    let Some(i) = instruction_in(*block) else {
        return NO_CODE;
    };
    let Some(t) = encode(i, length) else {
        return NO_CODE;
    };
    *parcels = [t.p0, t.p1, t.p2, t.p3, t.p4, t.p5];
    0
}
