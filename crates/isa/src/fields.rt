// What an operand field of one parcel stands for (sections 1.6.1 and 3.3, Table 3-2).
ghost use Rattle.std.specs.Prelude.{◌≡◌, ◌%◌, ◌^◌};
ghost use Rattle.isa.specs.Fields.{field_value};

use crate::FieldMode;
use word::sums::plus;
use word::widths::extend;

// The value of a field; of one that was cut out of a parcel it is a word.
pub fn field_value(mode: FieldMode, f: u32) -> u32
    ensures { result ≡ field_value mode f % 2 ^ 32 }
{
    match mode {
        FieldMode::Absent => 0,
        FieldMode::Imm5 => extend(27, f),
        FieldMode::Uimm5 => f,
        // an arm for each: joined, here and in decode, they cost ten instructions a step
        FieldMode::Wai5 => f << 2,
        FieldMode::Stk5 => f << 2,
        FieldMode::Istk5 => f << 2,
        FieldMode::Imm10 => f << 2,
        FieldMode::Pcrel10 => extend(21, f << 1),
        FieldMode::Stk8 => f << 4,
        FieldMode::Fill8 => plus(f << 4, 0xFFFF_F000),
    }
}
