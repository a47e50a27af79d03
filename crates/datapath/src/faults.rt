// What a fault leaves in the registers.
ghost use Rattle.std.specs.Prelude.{◌≡◌, ◌%◌, ◌^◌, cond, ◌||◌, eqb, set};

use machine::Bank;
use machine::places::FAULT;
use memory::answers::low32;
use memory::exceptions::{READ_FAULT, WRITE_FAULT};

// FAULT is the address a if the exception of the answer x is 8 or 9.
pub fn set_fault(r: &mut Bank, x: u64, a: u32)
    ensures { r.new ≡ cond (eqb (x % 2 ^ 32) 8 || eqb (x % 2 ^ 32) 9) (set r.old 1 a) r.old }
{
    let e = low32(x);
    if (e == READ_FAULT) | (e == WRITE_FAULT) {
        r[FAULT] = a;
    }
}
