// Registers of a bank by their place in Table 1-1: set by frame 01, and read.
ghost use Rattle.std.specs.Prelude.{◌≡◌, ◌<◌};
ghost use Rattle.machine.specs.Registers.{is_register_place, settable, assigned, setting, set_register};
ghost use Rattle.machine.specs.Record.{reading_of};
ghost use Rattle.refusals.specs.Numbers.{refusal_of};

use crate::Bank;
use crate::places::{ID_PLACE, MSP, MSP_PLACE, REGISTERS, SP, SP_PLACE};
use crate::registers::{clean, stack_held};
use refusals::Refusal;

// Whether the register at place k of the bank takes a word: no reserved bit, and MSP not away from SP.
fn takes(b: &Bank, k: u32, v: u32) -> bool
    ensures { result ≡ settable b.now k v }
{
    clean(k, v) & ((k != MSP_PLACE) | stack_held(b[SP], v))
}

// The register at place k of the bank set: ID keeps its word, SP sets MSP too.
fn assign(b: &mut Bank, k: u32, v: u32)
    requires { k < 13 }
    ensures { b.new ≡ assigned b.old k v }
{
    if k == ID_PLACE {
        return;
    }
    if k == SP_PLACE {
        b[SP] = v;
        b[MSP] = v;
        return;
    }
    let i = k as usize;
    b[i] = v;
}

// Whether a place is a register's; what is due is none.
fn is_register(place: u32) -> bool
    ensures { result ≡ is_register_place place }
{
    (1 <= place) & (place <= REGISTERS)
}

// The register at a place of Table 1-1 set to a word, or refused and the bank as it was.
#[tactic(auto, unfolding(crate::specs::Registers::set_register))]
pub fn set_register(b: &mut Bank, place: u32, value: u32) -> Result<(), Refusal>
    ensures { setting (refusal_of result) b.new ≡ set_register b.old place value }
{
    if !is_register(place) {
        return Err(Refusal::Register);
    }
    if !takes(b, place - 1, value) {
        return Err(Refusal::Register);
    }
    assign(b, place - 1, value);
    Ok(())
}

// The register at a place of Table 1-1.
#[tactic(auto, unfolding(crate::specs::Record::reading_of))]
pub fn read_register(b: &Bank, place: u32) -> Result<u32, Refusal>
    ensures { result ≡ reading_of b.now place }
{
    if !is_register(place) {
        return Err(Refusal::Register);
    }
    let i = (place - 1) as usize;
    Ok(b[i])
}
