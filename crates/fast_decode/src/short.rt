// One parcel.
ghost use Rattle.std.specs.Prelude.{◌≡◌};
ghost use Rattle.isa.specs.declared.ShortEntry.TheVariants as entry;
ghost use Rattle.isa.specs.Lengths.{short_length};
ghost use Rattle.isa.specs.Decode.{short_answer, decode_short};
ghost use Rattle.exec_rows.specs.Rows.{formed};
ghost use Rattle.fast_decode.specs.Plans.{planned, plan_of};

use crate::Plan;
use decode::fields::{destination_value, short_opcode, source_value};
use decode::short::find_entry;
use decode_tables::parcel::find_short;
use exec_rows::ShortForm;
use exec_rows::forms::short_form;
use isa::lengths::SHORT_LENGTH;
use isa::{FieldMode, ShortEntry, ShortRow, Wide};

// s and d are the values of its fields.
fn plan_form(form: ShortForm, s: u32, d: u32) -> Plan
    ensures { result ≡ planned (formed form s d) short_length }
{
    match form {
        ShortForm::Two(t, a, b) => Plan::Two(SHORT_LENGTH, Wide::Five, t, a, s, b, d),
        ShortForm::One(o, mode) => Plan::One(SHORT_LENGTH, o, mode, s),
        ShortForm::Zero(_) => Plan::Other,
    }
}

fn plan_row(row: ShortRow, s: FieldMode, d: FieldMode, p: u16) -> Plan
    ensures { result ≡ plan_of (short_answer (entry.Row row s d) p) }
{
    plan_form(short_form(row), source_value(s, p), destination_value(d, p))
}

fn plan_entry(e: ShortEntry, p: u16) -> Plan
    ensures { result ≡ plan_of (short_answer e p) }
{
    match e {
        ShortEntry::Row(row, s, d) => plan_row(row, s, d, p),
        _ => Plan::Other,
    }
}

// The plan of a parcel whose top bit is 0.
pub fn plan_short(p: u16) -> Plan
    ensures { result ≡ plan_of (decode_short p) }
{
    plan_entry(find_entry(find_short(short_opcode(p as u32)), p), p)
}
