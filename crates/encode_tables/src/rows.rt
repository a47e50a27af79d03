// The encodings lists of section 3.3: what they say of each row.
ghost use Rattle.std.specs.Prelude.{◌≡◌, ◌<◌};
ghost use Rattle.isa.specs.Encodings.{short_listed, dyadic_listed, monadic_listed};
ghost use Rattle.isa.specs.Encodings.{opcode_line, stack_line, niladic_line, dyadic_line, monadic_line};

use isa::{
    DyadicListed, DyadicRow, FieldMode, MonadicListed, MonadicRow, Operands, ShortListed, ShortRow,
    Single,
};

// A line at length 2 with its own opcode.
fn opcode_line(k: u32, s: FieldMode, d: FieldMode) -> ShortListed
    requires { k < 32 }
    ensures { result ≡ opcode_line k s d }
{
    ShortListed {
        base: k * 1024,
        source: s,
        destination: d,
    }
}

// A line at length 2 with a subcode of opcode 0x02.
fn stack_line(j: u32, s: FieldMode) -> ShortListed
    requires { j < 4 }
    ensures { result ≡ stack_line j s }
{
    ShortListed {
        base: 0x02 * 1024 + j * 256,
        source: s,
        destination: FieldMode::Absent,
    }
}

// A line at length 2 with a subcode of opcode 0x0B.
fn niladic_line(j: u32) -> ShortListed
    requires { j < 1024 }
    ensures { result ≡ niladic_line j }
{
    ShortListed {
        base: 0x0B * 1024 + j,
        source: FieldMode::Absent,
        destination: FieldMode::Absent,
    }
}

// Length 2.
pub fn list_short(row: ShortRow) -> ShortListed
    ensures { result ≡ short_listed row }
{
    match row {
        ShortRow::Kcall => opcode_line(0x00, FieldMode::Imm10, FieldMode::Absent),
        ShortRow::Call => opcode_line(0x01, FieldMode::Pcrel10, FieldMode::Absent),
        ShortRow::Jmp => opcode_line(0x03, FieldMode::Pcrel10, FieldMode::Absent),
        ShortRow::Jmpfn => opcode_line(0x04, FieldMode::Pcrel10, FieldMode::Absent),
        ShortRow::Jmpfy => opcode_line(0x05, FieldMode::Pcrel10, FieldMode::Absent),
        ShortRow::Jmptn => opcode_line(0x06, FieldMode::Pcrel10, FieldMode::Absent),
        ShortRow::Jmpty => opcode_line(0x07, FieldMode::Pcrel10, FieldMode::Absent),
        ShortRow::MovWaiStk => opcode_line(0x0A, FieldMode::Wai5, FieldMode::Stk5),
        ShortRow::Add3WaiStk => opcode_line(0x0D, FieldMode::Wai5, FieldMode::Stk5),
        ShortRow::And3ImmStk => opcode_line(0x0E, FieldMode::Imm5, FieldMode::Stk5),
        ShortRow::AndStkStk => opcode_line(0x0F, FieldMode::Stk5, FieldMode::Stk5),
        ShortRow::CmpeqImmStk => opcode_line(0x10, FieldMode::Imm5, FieldMode::Stk5),
        ShortRow::CmpgtStkStk => opcode_line(0x11, FieldMode::Stk5, FieldMode::Stk5),
        ShortRow::CmpgtImmStk => opcode_line(0x12, FieldMode::Imm5, FieldMode::Stk5),
        ShortRow::CmpeqStkStk => opcode_line(0x13, FieldMode::Stk5, FieldMode::Stk5),
        ShortRow::AddImmStk => opcode_line(0x14, FieldMode::Imm5, FieldMode::Stk5),
        ShortRow::Add3ImmStk => opcode_line(0x15, FieldMode::Imm5, FieldMode::Stk5),
        ShortRow::AddStkStk => opcode_line(0x16, FieldMode::Stk5, FieldMode::Stk5),
        ShortRow::Add3StkStk => opcode_line(0x17, FieldMode::Stk5, FieldMode::Stk5),
        ShortRow::MovStkStk => opcode_line(0x18, FieldMode::Stk5, FieldMode::Stk5),
        ShortRow::MovIstkStk => opcode_line(0x19, FieldMode::Istk5, FieldMode::Stk5),
        ShortRow::MovStkIstk => opcode_line(0x1A, FieldMode::Stk5, FieldMode::Istk5),
        ShortRow::MovIstkIstk => opcode_line(0x1B, FieldMode::Istk5, FieldMode::Istk5),
        ShortRow::MovImmStk => opcode_line(0x1C, FieldMode::Imm5, FieldMode::Stk5),
        ShortRow::MovaStkStk => opcode_line(0x1D, FieldMode::Stk5, FieldMode::Stk5),
        ShortRow::Shl3UimmStk => opcode_line(0x1E, FieldMode::Uimm5, FieldMode::Stk5),
        ShortRow::Shr3UimmStk => opcode_line(0x1F, FieldMode::Uimm5, FieldMode::Stk5),
        ShortRow::Enter => stack_line(0x0, FieldMode::Fill8),
        ShortRow::Catch => stack_line(0x1, FieldMode::Stk8),
        ShortRow::Return => stack_line(0x2, FieldMode::Stk8),
        ShortRow::Popn => stack_line(0x3, FieldMode::Stk8),
        ShortRow::Kret => niladic_line(0x1),
        ShortRow::Nop => niladic_line(0x2),
        ShortRow::Flushi => niladic_line(0x3),
        ShortRow::Flushp => niladic_line(0x4),
        ShortRow::Cret => niladic_line(0x5),
        ShortRow::Testv => niladic_line(0x8),
        ShortRow::Testc => niladic_line(0x9),
        ShortRow::Clre => niladic_line(0xA),
    }
}

// A line at lengths 6 and 10 with two operands.
fn dyadic_line(k: u32, o: Operands) -> DyadicListed
    ensures { result ≡ dyadic_line k o }
{
    DyadicListed {
        opcode: k,
        operands: o,
    }
}

// Lengths 6 and 10, two operands.
pub fn list_dyadic(row: DyadicRow) -> DyadicListed
    ensures { result ≡ dyadic_listed row }
{
    match row {
        DyadicRow::Ori => dyadic_line(0x01, Operands::Gen),
        DyadicRow::Andi => dyadic_line(0x02, Operands::Gen),
        DyadicRow::Addi => dyadic_line(0x03, Operands::Gen),
        DyadicRow::Mova => dyadic_line(0x04, Operands::GenAddress),
        DyadicRow::Urem => dyadic_line(0x05, Operands::Gen),
        DyadicRow::Mov => dyadic_line(0x06, Operands::GenWritten),
        DyadicRow::Dqm => dyadic_line(0x07, Operands::GenMoved),
        DyadicRow::Tadd => dyadic_line(0x0C, Operands::Gen),
        DyadicRow::Tsub => dyadic_line(0x0D, Operands::Gen),
        DyadicRow::Cmpgt => dyadic_line(0x1D, Operands::Gen),
        DyadicRow::Cmphi => dyadic_line(0x1E, Operands::Gen),
        DyadicRow::Cmpeq => dyadic_line(0x1F, Operands::Gen),
        DyadicRow::Sub => dyadic_line(0x20, Operands::Gen),
        DyadicRow::Or => dyadic_line(0x21, Operands::Gen),
        DyadicRow::And => dyadic_line(0x22, Operands::Gen),
        DyadicRow::Add => dyadic_line(0x23, Operands::Gen),
        DyadicRow::Xor => dyadic_line(0x24, Operands::Gen),
        DyadicRow::Rem => dyadic_line(0x25, Operands::Gen),
        DyadicRow::Mul => dyadic_line(0x26, Operands::Gen),
        DyadicRow::Div => dyadic_line(0x27, Operands::Gen),
        DyadicRow::Shr => dyadic_line(0x2C, Operands::Gen),
        DyadicRow::Ushr => dyadic_line(0x2D, Operands::Gen),
        DyadicRow::Shl => dyadic_line(0x2E, Operands::Gen),
        DyadicRow::Udiv => dyadic_line(0x2F, Operands::Gen),
        DyadicRow::Sub3 => dyadic_line(0x30, Operands::Gen),
        DyadicRow::Or3 => dyadic_line(0x31, Operands::Gen),
        DyadicRow::And3 => dyadic_line(0x32, Operands::Gen),
        DyadicRow::Add3 => dyadic_line(0x33, Operands::Gen),
        DyadicRow::Xor3 => dyadic_line(0x34, Operands::Gen),
        DyadicRow::Rem3 => dyadic_line(0x35, Operands::Gen),
        DyadicRow::Mul3 => dyadic_line(0x36, Operands::Gen),
        DyadicRow::Div3 => dyadic_line(0x37, Operands::Gen),
        DyadicRow::Shr3 => dyadic_line(0x3C, Operands::Gen),
        DyadicRow::Ushr3 => dyadic_line(0x3D, Operands::Gen),
        DyadicRow::Shl3 => dyadic_line(0x3E, Operands::Gen),
    }
}

// A line at length 6 with one operand.
fn monadic_line(j: u32, o: Single) -> MonadicListed
    ensures { result ≡ monadic_line j o }
{
    MonadicListed {
        subcode: j,
        operand: o,
    }
}

// Length 6, one operand.
pub fn list_monadic(row: MonadicRow) -> MonadicListed
    ensures { result ≡ monadic_listed row }
{
    match row {
        MonadicRow::Kcall => monadic_line(0x0, Single::Word32),
        MonadicRow::Call => monadic_line(0x1, Single::Flow32),
        MonadicRow::Return => monadic_line(0x2, Single::Stk32),
        MonadicRow::Jmp => monadic_line(0x3, Single::Flow32),
        MonadicRow::Jmpfn => monadic_line(0x4, Single::Abs32),
        MonadicRow::Jmpfy => monadic_line(0x5, Single::Abs32),
        MonadicRow::Jmptn => monadic_line(0x6, Single::Abs32),
        MonadicRow::Jmpty => monadic_line(0x7, Single::Abs32),
        MonadicRow::Catch => monadic_line(0x8, Single::Word32),
        MonadicRow::Enter => monadic_line(0x9, Single::EnterWord32),
        MonadicRow::Ldraa => monadic_line(0xA, Single::Flow32),
        MonadicRow::Flushpte => monadic_line(0xB, Single::Word32),
        MonadicRow::Flushpbe => monadic_line(0xC, Single::Word32),
        MonadicRow::Popn => monadic_line(0xF, Single::Stk32),
    }
}
