// Instructions of three parcels with one operand.
ghost use Rattle.std.specs.Prelude.{◌≡◌, ◌+◌, ◌*◌, ◌<◌};
ghost use Rattle.isa.specs.Encode.{flow_mode, takes, encode_monadic};
ghost use Rattle.encode.specs.Parts.{monadic_parcels, monadic_has_code};

use crate::text::{three_parcels, with_prefix};
use encode_tables::modes::monadic_code;
use encode_tables::rows::list_monadic;
use isa::{Encoded, MonadicInstruction, MonadicMode, Single, Text};
use word::fields::{high_half, low_half};

// Whether a mode is one of CALL's and JMP's.
fn is_flow(m: MonadicMode) -> bool
    ensures { result ≡ flow_mode m }
{
    matches!(
        m,
        MonadicMode::FlowAbsoluteIndirect
            | MonadicMode::FlowStackIndirect
            | MonadicMode::FlowRelative
            | MonadicMode::FlowAbsolute
    )
}

// Whether a row's class takes the operand.
fn takes_operand(o: Single, m: MonadicMode, v: u32) -> bool
    ensures { result ≡ takes o m v }
{
    match o {
        Single::Word32 => !is_flow(m),
        Single::Flow32 => is_flow(m),
        Single::Abs32 => is_flow(m) & (0xE <= monadic_code(m)),
        Single::Stk32 => !is_flow(m) & (monadic_code(m) == 0xD) & (v < 0x8000_0000),
        Single::EnterWord32 => !is_flow(m) & (!(monadic_code(m) == 0xD) | !(v < 0x8000_0000)),
    }
}

// The first parcel: opcode 0, the mode and the subcode.
fn first_parcel(k: u32, j: u32) -> u16
    requires { (k < 16) × (j < 16) }
    ensures { result ≡ 0x8000 + k * 16 + j }
{
    (0x8000 + (k << 4) + j) as u16
}

// The parcels of an instruction that has a code.
fn monadic_parcels(i: MonadicInstruction) -> Text
    ensures { result ≡ monadic_parcels i }
{
    let first = first_parcel(monadic_code(i.mode), list_monadic(i.row).subcode);
    with_prefix(
        i.prefix,
        three_parcels(first, high_half(i.value), low_half(i.value)),
    )
}

fn monadic_has_code(i: MonadicInstruction) -> bool
    ensures { result ≡ monadic_has_code i }
{
    takes_operand(list_monadic(i.row).operand, i.mode, i.value)
}

pub(crate) fn encode_monadic(i: MonadicInstruction) -> Encoded
    ensures { result ≡ encode_monadic i }
{
    monadic_has_code(i).then_some(monadic_parcels(i))
}
