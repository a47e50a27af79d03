#![tactic(auto)]
// The instruction set as data: rows of the encodings lists, operand modes, instructions and answers.
// What these mean is defined in specs/; the crates decode_tables, decode, encode_tables and encode are the code.
pub mod fields;
pub mod lengths;
mod registers;

// A line of the encodings lists (section 3.3) at length 2: one parcel. The lines of CPU and FLUSHD are
// no rows: the one is the `prefix` of another instruction, the other is unimplemented by its own page.
#[derive(Clone, Copy)]
pub enum ShortRow {
    Kcall,
    Call,
    Jmp,
    Jmpfn,
    Jmpfy,
    Jmptn,
    Jmpty,
    MovWaiStk,
    Add3WaiStk,
    And3ImmStk,
    AndStkStk,
    CmpeqImmStk,
    CmpgtStkStk,
    CmpgtImmStk,
    CmpeqStkStk,
    AddImmStk,
    Add3ImmStk,
    AddStkStk,
    Add3StkStk,
    MovStkStk,
    MovIstkStk,
    MovStkIstk,
    MovIstkIstk,
    MovImmStk,
    MovaStkStk,
    Shl3UimmStk,
    Shr3UimmStk,
    Enter,
    Catch,
    Return,
    Popn,
    Kret,
    Nop,
    Flushi,
    Flushp,
    Cret,
    Testv,
    Testc,
    Clre,
}

// A pair of lines at lengths 6 and 10 with two operands: which of the two, its form says.
#[derive(Clone, Copy)]
pub enum DyadicRow {
    Ori,
    Andi,
    Addi,
    Mova,
    Urem,
    Mov,
    Dqm,
    Tadd,
    Tsub,
    Cmpgt,
    Cmphi,
    Cmpeq,
    Sub,
    Or,
    And,
    Add,
    Xor,
    Rem,
    Mul,
    Div,
    Shr,
    Ushr,
    Shl,
    Udiv,
    Sub3,
    Or3,
    And3,
    Add3,
    Xor3,
    Rem3,
    Mul3,
    Div3,
    Shr3,
    Ushr3,
    Shl3,
}

// A line at length 6 with one operand. FLUSHDCE is no row: it is unimplemented by its own page.
#[derive(Clone, Copy)]
pub enum MonadicRow {
    Kcall,
    Call,
    Return,
    Jmp,
    Jmpfn,
    Jmpfy,
    Jmptn,
    Jmpty,
    Catch,
    Enter,
    Ldraa,
    Flushpte,
    Flushpbe,
    Popn,
}

// Operand fields of one parcel (Table 3-2). Fill8 is the stk8 of ENTER, which is filled with ones.
#[derive(Clone, Copy)]
pub enum FieldMode {
    Absent,
    Imm5,
    Uimm5,
    Wai5,
    Stk5,
    Istk5,
    Imm10,
    Pcrel10,
    Stk8,
    Fill8,
}

// Table 1-21.
#[derive(Clone, Copy)]
pub enum Mode {
    AbsoluteByte,
    AbsoluteUbyte,
    AbsoluteHalf,
    AbsoluteUhalf,
    StackByte,
    StackUbyte,
    StackHalf,
    StackUhalf,
    IndirectByte,
    IndirectUbyte,
    IndirectHalf,
    IndirectUhalf,
    AbsoluteWord,
    StackWord,
    IndirectWord,
    Immediate,
}

// The word modes of Table 1-21 and the modes of Table 1-23, for an operand of 32 bits.
#[derive(Clone, Copy)]
pub enum MonadicMode {
    WordAbsolute,
    WordStack,
    WordIndirect,
    WordImmediate,
    FlowAbsoluteIndirect,
    FlowStackIndirect,
    FlowRelative,
    FlowAbsolute,
}

// An operand of a dyadic: a mode of Table 1-21 with its value, or a register's number in Table 1-24.
#[derive(Clone, Copy)]
pub enum Operand {
    General(Mode, u32),
    Register(u32),
}

// The two long forms.
#[derive(Clone, Copy)]
pub enum Wide {
    Three,
    Five,
}

#[derive(Clone, Copy)]
pub struct ShortInstruction {
    pub row: ShortRow,
    pub source: u32,
    pub destination: u32,
}

#[derive(Clone, Copy)]
pub struct DyadicInstruction {
    pub row: DyadicRow,
    pub wide: Wide,
    pub prefix: bool,
    pub source: Operand,
    pub destination: Operand,
}

#[derive(Clone, Copy)]
pub struct MonadicInstruction {
    pub row: MonadicRow,
    pub prefix: bool,
    pub mode: MonadicMode,
    pub value: u32,
}

// Only what can be encoded has a place here: one parcel takes no prefix, a monadic has three parcels.
#[derive(Clone, Copy)]
pub enum Instruction {
    Short(ShortInstruction),
    Dyadic(DyadicInstruction),
    Monadic(MonadicInstruction),
}

// Up to six parcels by value, and how many there are in all: the first are p0, p1 and so on.
#[derive(Clone, Copy)]
pub struct Text {
    pub count: usize,
    pub p0: u16,
    pub p1: u16,
    pub p2: u16,
    pub p3: u16,
    pub p4: u16,
    pub p5: u16,
}

// Why a text is no instruction: illegal; unimplemented, with the offset of its vector, which of a trapped niladic is another
// (1.11.4); too few parcels.
#[derive(Clone, Copy, PartialEq, Eq, Debug)]
pub enum Undecoded {
    Illegal,
    Unimplemented(u32),
    Truncated,
}

// What the decoder answers: an instruction with its length in parcels, the prefix counted.
pub type Decoded = Result<(Instruction, u32), Undecoded>;

// What the encoder answers: the parcels, where there is a code.
pub type Encoded = Option<Text>;

// A place of Tables 1-15 to 1-17, with the operand letters of Table 1-15.
#[derive(Clone, Copy)]
pub enum ShortEntry {
    Row(ShortRow, FieldMode, FieldMode),
    Stack,
    Niladic,
    Prefix,
    Unimplemented,
    Trap,
    Unlisted,
}

// Which operands a dyadic may have.
#[derive(Clone, Copy)]
pub enum Rule {
    OneRegister,
    AnyTwo,
    Address,
    Multiple,
}

// A place of Tables 1-18 to 1-20: a row, and the rule of its operands.
#[derive(Clone, Copy)]
pub enum Entry<Row, Rule> {
    Row(Row, Rule),
    Unimplemented,
    Unlisted,
}

// A place of Tables 1-18 and 1-20.
pub type DyadicEntry = Entry<DyadicRow, Rule>;

// Which operands a monadic may have: word32, flow32, abs32, stk32 of Table 3-2, and ENTER's word32.
#[derive(Clone, Copy)]
pub enum MonadicRule {
    Word,
    Flow,
    Jump,
    Stack,
    Enter,
}

// A place of Table 1-19.
pub type MonadicEntry = Entry<MonadicRow, MonadicRule>;

// A place of Tables 1-21 and 1-22.
#[derive(Clone, Copy)]
pub enum ModeEntry {
    General(Mode),
    Register,
    Unlisted,
}

// What the encodings lists say of a one-parcel row: its parcel with no operand bits, its operands.
#[derive(Clone, Copy)]
pub struct ShortListed {
    pub base: u32,
    pub source: FieldMode,
    pub destination: FieldMode,
}

// Table 3-2 and the notes of section 3.3: gen with at most one register read, gen where the second
// operand is only written, MOVA's gen and DQM's gen.
#[derive(Clone, Copy)]
pub enum Operands {
    Gen,
    GenWritten,
    GenAddress,
    GenMoved,
}

#[derive(Clone, Copy)]
pub struct DyadicListed {
    pub opcode: u32,
    pub operands: Operands,
}

// Table 3-2's classes of 32-bit operands, as the pages of section 3.3 use them.
#[derive(Clone, Copy)]
pub enum Single {
    Word32,
    Flow32,
    Abs32,
    Stk32,
    EnterWord32,
}

#[derive(Clone, Copy)]
pub struct MonadicListed {
    pub subcode: u32,
    pub operand: Single,
}

// The parcel of CPU, which is a prefix.
pub const CPU_PREFIX: u16 = 0x2C00;

// Offsets of vectors (Table 1-14): of an unimplemented instruction, and of a trapped niladic.
pub const UNIMPLEMENTED_VECTOR: u32 = 12;

pub const NILADIC_TRAP_VECTOR: u32 = 8;
