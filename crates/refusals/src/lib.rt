#![tactic(auto)]
// Why a line, a run, a call or a record is refused.
ghost use Rattle.std.specs.Prelude.{◌≡◌};
ghost use Rattle.refusals.specs.Numbers.{number_of};

// Each by its number.
#[derive(Clone, Copy, PartialEq, Eq, Debug)]
pub enum Refusal {
    MemorySize = 1,
    Register = 2,
    InterruptLevel = 3,
    LostStack = 4,
    NoEncoding = 5,
    CutText = 6,
    MalformedLine = 7,
    OutsideMemory = 8,
    LevelNotUser = 9,
    MalformedRecord = 13,
    WrongChecksum = 14,
    OtherKind = 15,
}

impl Refusal {
    pub fn number(self) -> u32
        ensures { result ≡ number_of self }
    {
        self as u32
    }
}
