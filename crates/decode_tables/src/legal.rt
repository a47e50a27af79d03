// Which operands an instruction may have: sections 1.6, 1.7, 1.11.4 and the notes of section 3.3.
ghost use Rattle.std.specs.Prelude.{◌≡◌, ◌||◌};
ghost use Rattle.isa.specs.Legal.{word_in_memory, constant, double_word, is_register, of_mode, legal_of, is_stack, negative, monadic_legal_of};

use isa::{Mode, MonadicMode, MonadicRule, Operand, Rule};

// MOVA's source: a word in memory, which has an address.
fn has_address(s: Operand) -> bool
    ensures { result ≡ of_mode word_in_memory s }
{
    matches!(
        s,
        Operand::General(Mode::AbsoluteWord | Mode::StackWord | Mode::IndirectWord, _)
    )
}

// DQM's source: a word mode, the immediate among them.
fn has_word(s: Operand) -> bool
    ensures { result ≡ of_mode (λ m. word_in_memory m || constant m) s }
{
    has_address(s) | matches!(s, Operand::General(Mode::Immediate, _))
}

// DQM's destination: the double words take the places of the byte modes.
fn has_words(d: Operand) -> bool
    ensures { result ≡ of_mode (λ m. word_in_memory m || double_word m) d }
{
    has_address(d)
        | matches!(
            d,
            Operand::General(Mode::AbsoluteByte | Mode::StackByte | Mode::IndirectByte, _)
        )
}

// Whether a dyadic under this rule may have these operands. 1.7: at most one register is read.
pub fn legal(rule: Rule, s: Operand, d: Operand) -> bool
    ensures { result ≡ legal_of rule s d }
{
    match rule {
        Rule::OneRegister => !(s.is_register() & d.is_register()),
        Rule::AnyTwo => true,
        Rule::Address => has_address(s) & !d.is_register(),
        Rule::Multiple => has_word(s) & has_words(d),
    }
}

// Whether an operand is a stack offset.
pub fn is_stack(m: MonadicMode) -> bool
    ensures { result ≡ is_stack m }
{
    matches!(m, MonadicMode::WordStack)
}

fn is_negative(value: u32) -> bool
    ensures { result ≡ negative value }
{
    0x8000_0000 <= value
}

// Whether a monadic under this rule may have this operand: RETURN and POPN, and ENTER, whose offset from the stack pointer
// is negative.
pub fn monadic_legal(rule: MonadicRule, mode: MonadicMode, value: u32) -> bool
    ensures { result ≡ monadic_legal_of rule mode value }
{
    match rule {
        MonadicRule::Word | MonadicRule::Flow | MonadicRule::Jump => true,
        MonadicRule::Stack => !is_negative(value),
        MonadicRule::Enter => !is_stack(mode) | is_negative(value),
    }
}
