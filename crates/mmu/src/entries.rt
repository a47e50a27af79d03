// The fields of table entries (Tables 2-1 to 2-3), and what an entry permits.
ghost use Rattle.std.specs.Prelude.{◌≡◌, ◌-◌, ◌*◌, ◌+◌, ◌^◌, ◌<◌};
ghost use Rattle.mmu.specs.Walk.{fault_of, is_write, segment_place, page_place, permits as permits_of};

use crate::{AccessKind, USER, WRITABLE};
use memory::exceptions::{FETCH_FAULT, READ_FAULT, WRITE_FAULT};
use word::fields::{bit, field};

// The exception of an access that is not permitted.
pub fn fault_of(k: AccessKind) -> u32
    ensures { result ≡ fault_of k }
{
    match k {
        AccessKind::Fetch => FETCH_FAULT,
        AccessKind::Read => READ_FAULT,
        AccessKind::Write => WRITE_FAULT,
    }
}

pub fn is_write(k: AccessKind) -> bool
    ensures { result ≡ is_write k }
{
    match k {
        AccessKind::Fetch => false,
        AccessKind::Read => false,
        AccessKind::Write => true,
    }
}

// A field with another of n bits below it. That they fit is required: `|` adds them only then, and every caller has just cut
// them to their widths.
pub(crate) fn placed(high: u32, n: u32, low: u32) -> u32
    requires { (n < 32) × (high < 2 ^ (32 - n)) × (low < 2 ^ n) }
    ensures { result ≡ high * 2 ^ n + low }
{
    (high << n) | low
}

// The address of a segment entry.
pub fn segment_place(stb: u32, va: u32) -> u32
    ensures { result ≡ segment_place stb va }
{
    placed(field(stb, 12, 20), 12, field(va, 22, 10) << 2)
}

// The address of a page entry.
pub fn page_place(entry: u32, va: u32) -> u32
    ensures { result ≡ page_place entry va }
{
    placed(field(entry, 12, 20), 12, field(va, 12, 10) << 2)
}

// Whether a valid entry permits an access, at user level or not.
pub fn permits(user: bool, k: AccessKind, e: u32) -> bool
    ensures { result ≡ permits_of user k e }
{
    (bit(e, USER) | !user) & (bit(e, WRITABLE) | !is_write(k))
}
