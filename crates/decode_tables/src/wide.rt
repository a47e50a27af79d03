// Tables 1-18 to 1-20: what three and five parcels say, by opcode and subcode.
ghost use Rattle.std.specs.Prelude.{◌≡◌};
ghost use Rattle.isa.specs.Tables.{dyadic_of, monadic_of};

use isa::{DyadicEntry, DyadicRow, MonadicEntry, MonadicRow, MonadicRule, Rule};

// Tables 1-18 and 1-20, by the opcode.
pub fn find_dyadic(code: u32) -> DyadicEntry
    ensures { result ≡ dyadic_of code }
{
    match code {
        0x00 => DyadicEntry::Unimplemented,
        0x01 => DyadicEntry::Row(DyadicRow::Ori, Rule::OneRegister),
        0x02 => DyadicEntry::Row(DyadicRow::Andi, Rule::OneRegister),
        0x03 => DyadicEntry::Row(DyadicRow::Addi, Rule::OneRegister),
        0x04 => DyadicEntry::Row(DyadicRow::Mova, Rule::Address),
        0x05 => DyadicEntry::Row(DyadicRow::Urem, Rule::OneRegister),
        0x06 => DyadicEntry::Row(DyadicRow::Mov, Rule::AnyTwo),
        0x07 => DyadicEntry::Row(DyadicRow::Dqm, Rule::Multiple),
        0x08..=0x0B => DyadicEntry::Unimplemented,
        0x0C => DyadicEntry::Row(DyadicRow::Tadd, Rule::OneRegister),
        0x0D => DyadicEntry::Row(DyadicRow::Tsub, Rule::OneRegister),
        0x0E..=0x1C => DyadicEntry::Unimplemented,
        0x1D => DyadicEntry::Row(DyadicRow::Cmpgt, Rule::OneRegister),
        0x1E => DyadicEntry::Row(DyadicRow::Cmphi, Rule::OneRegister),
        0x1F => DyadicEntry::Row(DyadicRow::Cmpeq, Rule::OneRegister),
        0x20 => DyadicEntry::Row(DyadicRow::Sub, Rule::OneRegister),
        0x21 => DyadicEntry::Row(DyadicRow::Or, Rule::OneRegister),
        0x22 => DyadicEntry::Row(DyadicRow::And, Rule::OneRegister),
        0x23 => DyadicEntry::Row(DyadicRow::Add, Rule::OneRegister),
        0x24 => DyadicEntry::Row(DyadicRow::Xor, Rule::OneRegister),
        0x25 => DyadicEntry::Row(DyadicRow::Rem, Rule::OneRegister),
        0x26 => DyadicEntry::Row(DyadicRow::Mul, Rule::OneRegister),
        0x27 => DyadicEntry::Row(DyadicRow::Div, Rule::OneRegister),
        0x28..=0x2B => DyadicEntry::Unimplemented,
        0x2C => DyadicEntry::Row(DyadicRow::Shr, Rule::OneRegister),
        0x2D => DyadicEntry::Row(DyadicRow::Ushr, Rule::OneRegister),
        0x2E => DyadicEntry::Row(DyadicRow::Shl, Rule::OneRegister),
        0x2F => DyadicEntry::Row(DyadicRow::Udiv, Rule::OneRegister),
        0x30 => DyadicEntry::Row(DyadicRow::Sub3, Rule::OneRegister),
        0x31 => DyadicEntry::Row(DyadicRow::Or3, Rule::OneRegister),
        0x32 => DyadicEntry::Row(DyadicRow::And3, Rule::OneRegister),
        0x33 => DyadicEntry::Row(DyadicRow::Add3, Rule::OneRegister),
        0x34 => DyadicEntry::Row(DyadicRow::Xor3, Rule::OneRegister),
        0x35 => DyadicEntry::Row(DyadicRow::Rem3, Rule::OneRegister),
        0x36 => DyadicEntry::Row(DyadicRow::Mul3, Rule::OneRegister),
        0x37 => DyadicEntry::Row(DyadicRow::Div3, Rule::OneRegister),
        0x38..=0x3B => DyadicEntry::Unimplemented,
        0x3C => DyadicEntry::Row(DyadicRow::Shr3, Rule::OneRegister),
        0x3D => DyadicEntry::Row(DyadicRow::Ushr3, Rule::OneRegister),
        0x3E => DyadicEntry::Row(DyadicRow::Shl3, Rule::OneRegister),
        0x3F => DyadicEntry::Unimplemented,
        _ => DyadicEntry::Unlisted,
    }
}

// Table 1-19, by the subcode.
pub fn find_monadic(code: u32) -> MonadicEntry
    ensures { result ≡ monadic_of code }
{
    match code {
        0x0 => MonadicEntry::Row(MonadicRow::Kcall, MonadicRule::Word),
        0x1 => MonadicEntry::Row(MonadicRow::Call, MonadicRule::Flow),
        0x2 => MonadicEntry::Row(MonadicRow::Return, MonadicRule::Stack),
        0x3 => MonadicEntry::Row(MonadicRow::Jmp, MonadicRule::Flow),
        0x4 => MonadicEntry::Row(MonadicRow::Jmpfn, MonadicRule::Jump),
        0x5 => MonadicEntry::Row(MonadicRow::Jmpfy, MonadicRule::Jump),
        0x6 => MonadicEntry::Row(MonadicRow::Jmptn, MonadicRule::Jump),
        0x7 => MonadicEntry::Row(MonadicRow::Jmpty, MonadicRule::Jump),
        0x8 => MonadicEntry::Row(MonadicRow::Catch, MonadicRule::Word),
        0x9 => MonadicEntry::Row(MonadicRow::Enter, MonadicRule::Enter),
        0xA => MonadicEntry::Row(MonadicRow::Ldraa, MonadicRule::Flow),
        0xB => MonadicEntry::Row(MonadicRow::Flushpte, MonadicRule::Word),
        0xC => MonadicEntry::Row(MonadicRow::Flushpbe, MonadicRule::Word),
        0xD..=0xE => MonadicEntry::Unimplemented,
        0xF => MonadicEntry::Row(MonadicRow::Popn, MonadicRule::Stack),
        _ => MonadicEntry::Unlisted,
    }
}
