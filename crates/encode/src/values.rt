// What the operand fields of one parcel stand for (Table 3-2).
ghost use Rattle.std.specs.Prelude.{◌≡◌};
ghost use Rattle.isa.specs.Fields.{field_value};
ghost use Rattle.isa.specs.Encode.{raw_field, carries};

use encode_tables::fields::raw_field;
use isa::FieldMode;
use isa::fields::field_value;

// What the field of a value stands for.
pub fn value_again(m: FieldMode, v: u32) -> u32
    ensures { result ≡ field_value m (raw_field m v) }
{
    field_value(m, raw_field(m, v))
}

// Whether the field of a value stands for it.
pub fn carries_value(m: FieldMode, v: u32) -> bool
    ensures { result ≡ carries m v }
{
    value_again(m, v) == v
}
