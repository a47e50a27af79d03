// The recording bits of a page entry: Referenced, and at a write Modified.
ghost use Rattle.std.specs.Prelude.{◌≡◌, ◌+◌, set};
ghost use Rattle.memory.specs.Bytes.{byte_at};
ghost use Rattle.mmu.specs.Walk.{marked, fresh, recorded};

use crate::entries::is_write;
use crate::{AccessKind, MODIFIED, REFERENCED};
use word::fields::{field, set_bit};

// The low byte of an entry with its bits set.
pub fn mark(k: AccessKind, b: u8) -> u8
    ensures { result ≡ marked k b }
{
    if is_write(k) {
        field(set_bit(set_bit(b as u32, REFERENCED), MODIFIED), 0, 8) as u8
    } else {
        field(set_bit(b as u32, REFERENCED), 0, 8) as u8
    }
}

// The low byte of the entry at p; 0 past the end of memory.
pub fn low_byte(m: &[u8], p: u32) -> u8
    ensures { result ≡ byte_at m.now (p + 3) }
{
    let i = p as usize + 3;
    if i < m.len() { m[i] } else { 0 }
}

// The low byte of the entry at p becomes b; past the end of memory nothing does.
pub fn set_low_byte(m: &mut [u8], p: u32, b: u8)
    ensures { m.new ≡ set m.old (p + 3) b }
{
    let i = p as usize + 3;
    if i < m.len() {
        m[i] = b;
    }
}

// Whether recording an access changes a bit of the entry at p.
pub fn is_fresh(m: &[u8], k: AccessKind, p: u32) -> bool
    ensures { result ≡ fresh k p m.now }
{
    let b = low_byte(m, p);
    mark(k, b) != b
}

// An access through the page entry at p is recorded in it, if a bit changes.
pub fn record_access(m: &mut [u8], k: AccessKind, p: u32)
    ensures { m.new ≡ recorded k p m.old }
{
    let b = low_byte(m, p);
    let c = mark(k, b);
    if c != b {
        set_low_byte(m, p, c);
    }
}
