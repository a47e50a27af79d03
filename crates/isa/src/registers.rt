// What an operand of a dyadic is: a register or not, and what stands in its field.
ghost use Rattle.std.specs.Prelude.{◌≡◌};
ghost use Rattle.isa.specs.Legal.{is_register};
ghost use Rattle.isa.specs.Encode.{operand_raw};

use crate::Operand;

impl Operand {
    pub fn is_register(self) -> bool
        ensures { result ≡ is_register self }
    {
        matches!(self, Operand::Register(_))
    }

    // The value, or the register's number.
    pub fn raw(self) -> u32
        ensures { result ≡ operand_raw self }
    {
        match self {
            Operand::General(_, n) | Operand::Register(n) => n,
        }
    }
}
