#![tactic(auto)]
// Texts of records to frames, or of frames to records, up to the first line that is refused.
pub mod blocks;
pub mod exchanges;

// Which way a text is converted: a value, since Stopping, ConversionPrints and ProgramsRoundTrip speak of both ways at once.
#[derive(Clone, Copy, PartialEq, Eq, Debug)]
pub enum Way {
    // Records to frames.
    In,
    // Frames to records.
    Out,
}

// Between two exchanges of a program's loop: the first `end` bytes of the block are not converted yet, and `last` is the
// number of the last line.
#[derive(Clone, Copy, PartialEq, Eq, Debug)]
pub struct ConversionState {
    pub end: usize,
    pub last: u32,
}
