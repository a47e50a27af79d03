// Registers as operands, by their places in the bank.
ghost use Rattle.std.specs.Prelude.{◌≡◌, length};
ghost use Rattle.machine.specs.Registers.{word};

use machine::Bank;
use machine::places::BANK_WORDS;

// Says how long a bank is, which is not known of a lent one; the answer is not used.
fn bank_size(b: Bank) -> u32
    ensures { length b ≡ 17 }
{
    17
}

// The word at a place, 0 past the bank's end.
pub fn word_at(r: &Bank, k: u32) -> u32
    ensures { result ≡ word r.now k }
{
    if k < BANK_WORDS {
        let i = k as usize;
        r[i]
    } else {
        let whole = *r;
        let size = bank_size(whole);
        0
    }
}
