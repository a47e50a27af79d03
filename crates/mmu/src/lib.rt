#![tactic(auto)]
// Translation of chapter 2: the walk, which only looks, and the recording bits.
pub mod entries;
pub mod recording;
pub mod translation;

// What an access is for.
#[derive(Clone, Copy)]
pub enum AccessKind {
    Fetch,
    Read,
    Write,
}

// What the segment number leads to: past memory, an invalid entry, a nonpaged segment's entry, or the address of a
// page entry, which lies in memory.
#[derive(Clone, Copy)]
pub enum Segment {
    Outside,
    Invalid,
    Nonpaged(u32),
    Table(u32),
}

// Where a walk ends: an exception, an address in a nonpaged segment, or an address in a page with its page entry's.
#[derive(Clone, Copy)]
pub enum Walk {
    Fault(u32),
    Direct(u32),
    Paged(u32, u32),
}

// A translation regime: where the segment table is, at which level an access goes, and whether it is translated.
#[derive(Clone, Copy)]
pub struct Regime {
    pub stb: u32,
    pub user: bool,
    pub translated: bool,
}

// Tables 2-1 to 2-3: bits of a table entry. Bit 3 of a segment entry says that it is not paged, of a page entry that it was
// referenced.
pub const VALID: u32 = 0;

pub const WRITABLE: u32 = 1;

pub const USER: u32 = 2;

pub const NONPAGED: u32 = 3;

pub const REFERENCED: u32 = 3;

pub const MODIFIED: u32 = 4;
