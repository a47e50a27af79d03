// Tables 1-21 to 1-23: the modes of an operand, by their number.
ghost use Rattle.std.specs.Prelude.{◌≡◌};
ghost use Rattle.isa.specs.declared.MonadicRule.TheVariants as rule;
ghost use Rattle.isa.specs.Tables.{general_of, prefixed_of, monadic_mode_of};

use isa::{Mode, ModeEntry, MonadicMode, MonadicRule};

// Table 1-21.
pub fn find_general(code: u32) -> ModeEntry
    ensures { result ≡ general_of code }
{
    match code {
        0x0 => ModeEntry::General(Mode::AbsoluteByte),
        0x1 => ModeEntry::General(Mode::AbsoluteUbyte),
        0x2 => ModeEntry::General(Mode::AbsoluteHalf),
        0x3 => ModeEntry::General(Mode::AbsoluteUhalf),
        0x4 => ModeEntry::General(Mode::StackByte),
        0x5 => ModeEntry::General(Mode::StackUbyte),
        0x6 => ModeEntry::General(Mode::StackHalf),
        0x7 => ModeEntry::General(Mode::StackUhalf),
        0x8 => ModeEntry::General(Mode::IndirectByte),
        0x9 => ModeEntry::General(Mode::IndirectUbyte),
        0xA => ModeEntry::General(Mode::IndirectHalf),
        0xB => ModeEntry::General(Mode::IndirectUhalf),
        0xC => ModeEntry::General(Mode::AbsoluteWord),
        0xD => ModeEntry::General(Mode::StackWord),
        0xE => ModeEntry::General(Mode::IndirectWord),
        0xF => ModeEntry::General(Mode::Immediate),
        _ => ModeEntry::Unlisted,
    }
}

// Table 1-22, after a CPU prefix: the registers, and the word modes of Table 1-21.
pub fn find_prefixed(code: u32) -> ModeEntry
    ensures { result ≡ prefixed_of code }
{
    match code {
        0x7 => ModeEntry::Register,
        0xC..=0xF => find_general(code),
        _ => ModeEntry::Unlisted,
    }
}

// The word modes of Table 1-21, for a monadic.
fn find_word(code: u32) -> Option<MonadicMode>
    ensures { result ≡ monadic_mode_of rule.Word code }
{
    match code {
        0xC => Some(MonadicMode::WordAbsolute),
        0xD => Some(MonadicMode::WordStack),
        0xE => Some(MonadicMode::WordIndirect),
        0xF => Some(MonadicMode::WordImmediate),
        _ => None,
    }
}

// Table 1-23.
fn find_flow(code: u32) -> Option<MonadicMode>
    ensures { result ≡ monadic_mode_of rule.Flow code }
{
    match code {
        0xC => Some(MonadicMode::FlowAbsoluteIndirect),
        0xD => Some(MonadicMode::FlowStackIndirect),
        0xE => Some(MonadicMode::FlowRelative),
        0xF => Some(MonadicMode::FlowAbsolute),
        _ => None,
    }
}

// Table 1-23, for a jump by a condition: no indirection.
fn find_jump(code: u32) -> Option<MonadicMode>
    ensures { result ≡ monadic_mode_of rule.Jump code }
{
    match code {
        0xE => Some(MonadicMode::FlowRelative),
        0xF => Some(MonadicMode::FlowAbsolute),
        _ => None,
    }
}

// A stack offset alone.
fn find_offset(code: u32) -> Option<MonadicMode>
    ensures { result ≡ monadic_mode_of rule.Stack code }
{
    match code {
        0xD => Some(MonadicMode::WordStack),
        _ => None,
    }
}

// By the class of the instruction's operand.
pub fn find_monadic_mode(rule: MonadicRule, code: u32) -> Option<MonadicMode>
    ensures { result ≡ monadic_mode_of rule code }
{
    match rule {
        MonadicRule::Word | MonadicRule::Enter => find_word(code),
        MonadicRule::Flow => find_flow(code),
        MonadicRule::Jump => find_jump(code),
        MonadicRule::Stack => find_offset(code),
    }
}
