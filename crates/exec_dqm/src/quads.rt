// DQM: all words are read before the destination is found.
ghost use Rattle.std.specs.Prelude.{◌≡◌};
ghost use Rattle.isa.specs.Legal.{of_mode, double_word};
ghost use Rattle.datapath.specs.Clauses.{Ends};
ghost use Rattle.exec_spec.specs.Dyadic.{move_words};
ghost use Rattle.exec_operands.specs.Code.{place_at};
ghost use Rattle.exec_dqm.specs.Words.{words_for, put_words, copy_words};

use crate::words::{MovedWords, read_many, write_many};
use access_spec::Journal;
use exec_operands::places::locate_at;
use isa::{Mode, Operand, Wide};
use machine::{Bank, Quads};
use memory::answers::{EXCEPTION, low32};

// The modes that say double-word.
fn is_double_mode(mode: Mode) -> bool
    ensures { result ≡ double_word mode }
{
    match mode {
        Mode::AbsoluteByte => true,
        Mode::AbsoluteUbyte => false,
        Mode::AbsoluteHalf => false,
        Mode::AbsoluteUhalf => false,
        Mode::StackByte => true,
        Mode::StackUbyte => false,
        Mode::StackHalf => false,
        Mode::StackUhalf => false,
        Mode::IndirectByte => true,
        Mode::IndirectUbyte => false,
        Mode::IndirectHalf => false,
        Mode::IndirectUhalf => false,
        Mode::AbsoluteWord => false,
        Mode::StackWord => false,
        Mode::IndirectWord => false,
        Mode::Immediate => false,
    }
}

fn is_double(o: Operand) -> bool
    ensures { result ≡ of_mode double_word o }
{
    match o {
        Operand::General(mode, _) => is_double_mode(mode),
        Operand::Register(_) => false,
    }
}

// To the destination.
fn put_words(
    m: &mut [u8],
    journal: &mut Journal,
    q: &mut Quads,
    r: &mut Bank,
    double: bool,
    wide: Wide,
    d: Operand,
    w: MovedWords,
    y: u32,
) -> u64
    ensures { Ends result m journal q r (λ c. put_words c double wide d (words_for double w.w0 w.w1 w.w2 y)) }
{
    let a = locate_at(m, journal, q, r, wide, d);
    if EXCEPTION <= a {
        a
    } else {
        write_many(m, journal, q, r, double, d, low32(a), w, y)
    }
}

// From a source found at a.
fn copy_words(
    m: &mut [u8],
    journal: &mut Journal,
    q: &mut Quads,
    r: &mut Bank,
    double: bool,
    wide: Wide,
    s: Operand,
    a: u32,
    d: Operand,
) -> u64
    ensures { Ends result m journal q r (λ c. copy_words c double wide d (place_at s a)) }
{
    let w = read_many(m, journal, q, r, double, s, a);
    if EXCEPTION <= w.answer {
        w.answer
    } else {
        put_words(m, journal, q, r, double, wide, d, w, low32(w.answer))
    }
}

// DQM.
pub fn move_words(
    m: &mut [u8],
    journal: &mut Journal,
    q: &mut Quads,
    r: &mut Bank,
    wide: Wide,
    s: Operand,
    d: Operand,
) -> u64
    ensures { Ends result m journal q r (λ c. move_words c wide s d) }
{
    let double = is_double(d);
    let a = locate_at(m, journal, q, r, wide, s);
    if EXCEPTION <= a {
        a
    } else {
        copy_words(m, journal, q, r, double, wide, s, low32(a), d)
    }
}
