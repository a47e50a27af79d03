#![tactic(auto)]
// 32-bit words: sums, products, quotients, shifts, widths and tagged sums, with the flags of the manual's section 1.8.
// Where a function has b and a, b is the destination operand of the instruction and a its source operand.
pub mod fields;
pub mod products;
pub mod shifts;
pub mod sums;
pub mod tags;
pub mod widths;

// A sum, difference or product with its carry and overflow (1.8.1, 1.8.2).
#[derive(Clone, Copy)]
pub struct Sum {
    pub value: u32,
    pub carry: bool,
    pub overflow: bool,
}

// A signed quotient with its remainder and overflow (1.8.2, 1.8.3).
#[derive(Clone, Copy)]
pub struct Quotient {
    pub value: u32,
    pub rest: u32,
    pub overflow: bool,
}

// What TADD and TSUB leave: the destination's value, whether it is stored at all, and the flags C, V and F (1.8.4).
#[derive(Clone, Copy)]
pub struct Tagged {
    pub value: u32,
    pub stored: bool,
    pub carry: bool,
    pub overflow: bool,
    pub flag: bool,
}

// The widths of an operand (1.2).
#[derive(Clone, Copy)]
pub enum Width {
    Byte,
    Half,
    Word,
}
