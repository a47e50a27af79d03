// Registers written under a CPU prefix (1.7, Table 1-24).
ghost use Rattle.std.specs.Prelude.{◌≡◌, length};
ghost use Rattle.machine.specs.Registers.{sp, isp, msp};
ghost use Rattle.machine.specs.Status.{with};
ghost use Rattle.datapath.specs.Clauses.{Becomes};
ghost use Rattle.exec_spec.specs.Operands.{shadowed as shadowed_of, write_register};

use machine::Bank;
use machine::places::{BANK_WORDS, ID_PLACE, ISP, ISP_PLACE, MSP, SHAD, SP, SP_PLACE};
use machine::registers::unreserved;
use machine::status::csp;

// Says how long a bank is, which is not known of a lent one; the answer is not used.
fn bank_size(b: Bank) -> u32
    ensures { length b ≡ 17 }
{
    17
}

// The word at a place of the bank; a place past its end takes none.
pub fn put(b: &mut Bank, k: u32, v: u32)
    ensures { Becomes b (λ c. with c k v) }
{
    if k < BANK_WORDS {
        let i = k as usize;
        b[i] = v;
    } else {
        let whole = *b;
        let size = bank_size(whole);
    }
}

// SHAD follows the current stack pointer.
fn shadowed(b: &mut Bank, k: u32, v: u32)
    ensures { Becomes b (λ c. shadowed_of c k v) }
{
    if k == csp(b) {
        b[SHAD] = v;
    }
}

// SP, and MSP with it.
fn write_sp(b: &mut Bank, v: u32)
    ensures { Becomes b (λ c. shadowed_of (with (with c sp v) msp v) sp v) }
{
    b[SP] = v;
    b[MSP] = v;
    shadowed(b, SP_PLACE, v);
}

fn write_isp(b: &mut Bank, v: u32)
    ensures { Becomes b (λ c. shadowed_of (with c isp v) isp v) }
{
    b[ISP] = v;
    shadowed(b, ISP_PLACE, v);
}

// The register at place k, without its reserved bits: ID takes none.
pub fn write_register(b: &mut Bank, k: u32, v: u32)
    ensures { Becomes b (λ c. write_register c k v) }
{
    if k != ID_PLACE {
        if k == SP_PLACE {
            write_sp(b, unreserved(SP_PLACE, v));
        } else {
            if k == ISP_PLACE {
                write_isp(b, unreserved(ISP_PLACE, v));
            } else {
                put(b, k, unreserved(k, v));
            }
        }
    }
}
