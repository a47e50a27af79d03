// The operand fields of one parcel.
ghost use Rattle.std.specs.Prelude.{◌≡◌};
ghost use Rattle.isa.specs.Encode.{raw_field};

use isa::FieldMode;
use word::fields::field;

// The field that a value would have.
pub fn raw_field(m: FieldMode, v: u32) -> u32
    ensures { result ≡ raw_field m v }
{
    match m {
        FieldMode::Absent => 0,
        FieldMode::Imm5 | FieldMode::Uimm5 => field(v, 0, 5),
        FieldMode::Wai5 | FieldMode::Stk5 | FieldMode::Istk5 => field(v, 2, 5),
        FieldMode::Imm10 => field(v, 2, 10),
        FieldMode::Pcrel10 => field(v, 1, 10),
        FieldMode::Stk8 | FieldMode::Fill8 => field(v, 4, 8),
    }
}
