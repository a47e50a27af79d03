// Three and five parcels.
ghost use Rattle.std.specs.Prelude.{◌≡◌, false};
ghost use Rattle.isa.specs.declared.Entry.TheVariants as entry;
ghost use Rattle.isa.specs.declared.Operand.TheVariants as operand;
ghost use Rattle.isa.specs.Lengths.{form_of, after_of};
ghost use Rattle.isa.specs.Decode.{operand_found, dyadic_answer, both_found, decode_dyadic, monadic_found, decode_monadic, decode_wide};
ghost use Rattle.fast_decode.specs.Plans.{plan_of};

use crate::Plan;
use decode::dyadic::value;
use decode::fields::{last_bits, mode_bits, opcode_bits};
use decode::wide::{find_form, first, is_monadic, second};
use decode_tables::legal::{legal, monadic_legal};
use decode_tables::modes::{find_general, find_monadic_mode};
use decode_tables::wide::{find_dyadic, find_monadic};
use exec_rows::forms::{monadic_operation, task_of};
use isa::lengths::wide_length;
use isa::{
    DyadicEntry, DyadicRow, Entry, Mode, ModeEntry, MonadicMode, MonadicRow, MonadicRule, Operand,
    Rule, Wide,
};
use word::fields::joined;

fn plan_operands(wide: Wide, row: DyadicRow, rule: Rule, a: Mode, v: u32, b: Mode, w: u32) -> Plan
    ensures { result ≡ plan_of (dyadic_answer (entry.Row row rule) wide false (operand.General a v) (operand.General b w)) }
{
    if legal(rule, Operand::General(a, v), Operand::General(b, w)) {
        return Plan::Two(wide_length(wide), wide, task_of(row), a, v, b, w);
    }
    Plan::Other
}

// By the modes of both; x and y are the operand fields.
fn plan_modes(
    wide: Wide,
    row: DyadicRow,
    rule: Rule,
    s: ModeEntry,
    d: ModeEntry,
    x: u32,
    y: u32,
) -> Plan
    ensures { result ≡ plan_of (both_found (entry.Row row rule) wide false (operand_found wide s x) (operand_found wide d y)) }
{
    match (s, d) {
        (ModeEntry::General(a), ModeEntry::General(b)) => {
            plan_operands(wide, row, rule, a, value(wide, a, x), b, value(wide, b, y))
        }
        _ => Plan::Other,
    }
}

fn plan_entry(e: DyadicEntry, wide: Wide, s: ModeEntry, d: ModeEntry, x: u32, y: u32) -> Plan
    ensures { result ≡ plan_of (both_found e wide false (operand_found wide s x) (operand_found wide d y)) }
{
    match e {
        Entry::Row(row, rule) => plan_modes(wide, row, rule, s, d, x, y),
        Entry::Unimplemented | Entry::Unlisted => Plan::Other,
    }
}

fn plan_dyadic(wide: Wide, p: u16, x: u32, y: u32) -> Plan
    ensures { result ≡ plan_of (decode_dyadic wide false p x y) }
{
    let e = find_dyadic(opcode_bits(p as u32));
    let s = find_general(mode_bits(p as u32));
    let d = find_general(last_bits(p as u32));
    plan_entry(e, wide, s, d, x, y)
}

fn plan_mode(row: MonadicRow, rule: MonadicRule, e: Option<MonadicMode>, v: u32) -> Plan
    ensures { result ≡ plan_of (monadic_found row rule false e v) }
{
    match e {
        Some(mode) if monadic_legal(rule, mode, v) => {
            Plan::One(wide_length(Wide::Three), monadic_operation(row), mode, v)
        }
        _ => Plan::Other,
    }
}

fn plan_monadic(p: u16, v: u32) -> Plan
    ensures { result ≡ plan_of (decode_monadic false p v) }
{
    match find_monadic(last_bits(p as u32)) {
        Entry::Row(row, rule) => {
            plan_mode(row, rule, find_monadic_mode(rule, mode_bits(p as u32)), v)
        }
        Entry::Unimplemented | Entry::Unlisted => Plan::Other,
    }
}

// The plan of a parcel p whose top bit is 1 and the four after it, of which three parcels call for two.
pub fn plan_wide(p: u16, a: u16, b: u16, c: u16, d: u16) -> Plan
    ensures { result ≡ plan_of (decode_wide false (after_of (form_of p)) p a b c d) }
{
    let wide = find_form(p);
    if is_monadic(wide, p) {
        return plan_monadic(p, joined(a, b));
    }
    plan_dyadic(wide, p, first(wide, a, b), second(wide, b, c, d))
}
