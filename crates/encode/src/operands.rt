// Which operands a dyadic may have, and whether a form has room for them.
ghost use Rattle.std.specs.Prelude.{◌≡◌};
ghost use Rattle.isa.specs.Encode.{fits16, fits_gen, fits, moved_code, admits, is_absolute, address_code};

use encode_tables::modes::{mode_code, operand_code};
use isa::{Operand, Operands, Wide};
use word::Width;
use word::fields::low_half;
use word::widths::sign_extend;

// Whether a mode's number is that of an absolute address.
fn is_absolute(k: u32) -> bool
    ensures { result ≡ is_absolute k }
{
    (k < 0x4) | (k == 0xC)
}

// Whether 16 bits carry a value of the mode k.
fn fits_16(k: u32, v: u32) -> bool
    ensures { result ≡ fits16 k v }
{
    if is_absolute(k) {
        v < 65536
    } else {
        sign_extend(Width::Half, low_half(v) as u32) == v
    }
}

fn fits_general(w: Wide, k: u32, v: u32) -> bool
    ensures { result ≡ fits_gen w k v }
{
    match w {
        Wide::Three => fits_16(k, v),
        Wide::Five => true,
    }
}

// Whether a form has room for an operand's value.
pub fn fits_form(w: Wide, o: Operand) -> bool
    ensures { result ≡ fits w o }
{
    match o {
        Operand::General(m, v) => fits_general(w, mode_code(m), v),
        Operand::Register(n) => n < 16,
    }
}

// A word in memory.
fn is_address(k: u32) -> bool
    ensures { result ≡ address_code k }
{
    (0xC <= k) & (k < 0xF)
}

// A destination of DQM.
fn is_moved(k: u32) -> bool
    ensures { result ≡ moved_code k }
{
    (k == 0x0) | (k == 0x4) | (k == 0x8) | is_address(k)
}

// Whether a row's class takes the two operands.
pub fn admits_both(o: Operands, s: Operand, d: Operand) -> bool
    ensures { result ≡ admits o s d }
{
    match o {
        Operands::Gen => !s.is_register() | !d.is_register(),
        Operands::GenWritten => true,
        Operands::GenAddress => !s.is_register() & !d.is_register() & is_address(operand_code(s)),
        Operands::GenMoved => !s.is_register()
            & !d.is_register()
            & (0xC <= operand_code(s))
            & is_moved(operand_code(d)),
    }
}
