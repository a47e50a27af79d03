// Tables 1-15 to 1-17: what one parcel says, by opcode and subcode.
ghost use Rattle.std.specs.Prelude.{◌≡◌};
ghost use Rattle.isa.specs.Tables.{short_of, stack_of, niladic_of};

use isa::{FieldMode, ShortEntry, ShortRow};

// Table 1-15, by the opcode.
pub fn find_short(code: u32) -> ShortEntry
    ensures { result ≡ short_of code }
{
    match code {
        0x00 => ShortEntry::Row(ShortRow::Kcall, FieldMode::Imm10, FieldMode::Absent),
        0x01 => ShortEntry::Row(ShortRow::Call, FieldMode::Pcrel10, FieldMode::Absent),
        0x02 => ShortEntry::Stack,
        0x03 => ShortEntry::Row(ShortRow::Jmp, FieldMode::Pcrel10, FieldMode::Absent),
        0x04 => ShortEntry::Row(ShortRow::Jmpfn, FieldMode::Pcrel10, FieldMode::Absent),
        0x05 => ShortEntry::Row(ShortRow::Jmpfy, FieldMode::Pcrel10, FieldMode::Absent),
        0x06 => ShortEntry::Row(ShortRow::Jmptn, FieldMode::Pcrel10, FieldMode::Absent),
        0x07 => ShortEntry::Row(ShortRow::Jmpty, FieldMode::Pcrel10, FieldMode::Absent),
        0x08..=0x09 => ShortEntry::Unimplemented,
        0x0A => ShortEntry::Row(ShortRow::MovWaiStk, FieldMode::Wai5, FieldMode::Stk5),
        0x0B => ShortEntry::Niladic,
        0x0C => ShortEntry::Unimplemented,
        0x0D => ShortEntry::Row(ShortRow::Add3WaiStk, FieldMode::Wai5, FieldMode::Stk5),
        0x0E => ShortEntry::Row(ShortRow::And3ImmStk, FieldMode::Imm5, FieldMode::Stk5),
        0x0F => ShortEntry::Row(ShortRow::AndStkStk, FieldMode::Stk5, FieldMode::Stk5),
        0x10 => ShortEntry::Row(ShortRow::CmpeqImmStk, FieldMode::Imm5, FieldMode::Stk5),
        0x11 => ShortEntry::Row(ShortRow::CmpgtStkStk, FieldMode::Stk5, FieldMode::Stk5),
        0x12 => ShortEntry::Row(ShortRow::CmpgtImmStk, FieldMode::Imm5, FieldMode::Stk5),
        0x13 => ShortEntry::Row(ShortRow::CmpeqStkStk, FieldMode::Stk5, FieldMode::Stk5),
        0x14 => ShortEntry::Row(ShortRow::AddImmStk, FieldMode::Imm5, FieldMode::Stk5),
        0x15 => ShortEntry::Row(ShortRow::Add3ImmStk, FieldMode::Imm5, FieldMode::Stk5),
        0x16 => ShortEntry::Row(ShortRow::AddStkStk, FieldMode::Stk5, FieldMode::Stk5),
        0x17 => ShortEntry::Row(ShortRow::Add3StkStk, FieldMode::Stk5, FieldMode::Stk5),
        0x18 => ShortEntry::Row(ShortRow::MovStkStk, FieldMode::Stk5, FieldMode::Stk5),
        0x19 => ShortEntry::Row(ShortRow::MovIstkStk, FieldMode::Istk5, FieldMode::Stk5),
        0x1A => ShortEntry::Row(ShortRow::MovStkIstk, FieldMode::Stk5, FieldMode::Istk5),
        0x1B => ShortEntry::Row(ShortRow::MovIstkIstk, FieldMode::Istk5, FieldMode::Istk5),
        0x1C => ShortEntry::Row(ShortRow::MovImmStk, FieldMode::Imm5, FieldMode::Stk5),
        0x1D => ShortEntry::Row(ShortRow::MovaStkStk, FieldMode::Stk5, FieldMode::Stk5),
        0x1E => ShortEntry::Row(ShortRow::Shl3UimmStk, FieldMode::Uimm5, FieldMode::Stk5),
        0x1F => ShortEntry::Row(ShortRow::Shr3UimmStk, FieldMode::Uimm5, FieldMode::Stk5),
        _ => ShortEntry::Unlisted,
    }
}

// Table 1-16, by the subcode in bits 9:8.
pub fn find_stack(code: u32) -> ShortEntry
    ensures { result ≡ stack_of code }
{
    match code {
        0x0 => ShortEntry::Row(ShortRow::Enter, FieldMode::Fill8, FieldMode::Absent),
        0x1 => ShortEntry::Row(ShortRow::Catch, FieldMode::Stk8, FieldMode::Absent),
        0x2 => ShortEntry::Row(ShortRow::Return, FieldMode::Stk8, FieldMode::Absent),
        0x3 => ShortEntry::Row(ShortRow::Popn, FieldMode::Stk8, FieldMode::Absent),
        _ => ShortEntry::Unlisted,
    }
}

// Table 1-17, by the subcode in bits 9:0. The upper half is trapped.
pub fn find_niladic(code: u32) -> ShortEntry
    ensures { result ≡ niladic_of code }
{
    match code {
        0x000 => ShortEntry::Prefix,
        0x001 => ShortEntry::Row(ShortRow::Kret, FieldMode::Absent, FieldMode::Absent),
        0x002 => ShortEntry::Row(ShortRow::Nop, FieldMode::Absent, FieldMode::Absent),
        0x003 => ShortEntry::Row(ShortRow::Flushi, FieldMode::Absent, FieldMode::Absent),
        0x004 => ShortEntry::Row(ShortRow::Flushp, FieldMode::Absent, FieldMode::Absent),
        0x005 => ShortEntry::Row(ShortRow::Cret, FieldMode::Absent, FieldMode::Absent),
        0x006..=0x007 => ShortEntry::Unimplemented,
        0x008 => ShortEntry::Row(ShortRow::Testv, FieldMode::Absent, FieldMode::Absent),
        0x009 => ShortEntry::Row(ShortRow::Testc, FieldMode::Absent, FieldMode::Absent),
        0x00A => ShortEntry::Row(ShortRow::Clre, FieldMode::Absent, FieldMode::Absent),
        0x00B..=0x1FF => ShortEntry::Unimplemented,
        0x200..=0x3FF => ShortEntry::Trap,
        _ => ShortEntry::Unlisted,
    }
}
