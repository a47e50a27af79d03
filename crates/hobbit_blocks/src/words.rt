// The instruction in a block.
ghost use Rattle.std.specs.Prelude.{◌≡◌};
ghost use Rattle.hobbit_blocks.specs.Numbering.{short_in, length_agrees, operand_in, dyadic_in, monadic_mode_in, monadic_in, instruction_in};

use crate::REGISTER_MODE;
use decode::fields::short_opcode;
use decode::short::find_entry;
use decode_tables::modes::{find_general, find_monadic_mode};
use decode_tables::parcel::find_short;
use decode_tables::wide::{find_dyadic, find_monadic};
use encode_tables::rows::list_short;
use isa::lengths::{SHORT_LENGTH, prefix_length, wide_length};
use isa::{
    DyadicInstruction, Entry, Instruction, Mode, ModeEntry, MonadicInstruction, MonadicMode,
    MonadicRule, Operand, ShortEntry, ShortInstruction, Wide,
};

// The words of a block after its kind.
#[derive(Clone, Copy)]
struct Words {
    row: u32,
    length: u32,
    prefix: u32,
    source_mode: u32,
    source: u32,
    destination_mode: u32,
    destination: u32,
}

// Whoever asks has tested the mode's number: no mode of another number is ever taken.
fn operand_in(k: u32, v: u32) -> Operand
    ensures { result ≡ operand_in k v }
{
    if k == REGISTER_MODE {
        return Operand::Register(v);
    }
    match find_general(k) {
        ModeEntry::General(m) => Operand::General(m, v),
        ModeEntry::Register | ModeEntry::Unlisted => Operand::General(Mode::Immediate, v),
    }
}

// The word modes come first, then those of CALL and JMP.
fn monadic_mode_in(k: u32) -> Option<MonadicMode>
    ensures { result ≡ monadic_mode_in k }
{
    match k {
        0..=3 => find_monadic_mode(MonadicRule::Word, k + 0xC),
        4..=7 => find_monadic_mode(MonadicRule::Flow, k + 8),
        _ => None,
    }
}

impl Words {
    // A row without operand bits, and no word that one parcel has no use for.
    fn short_in(self) -> Option<Instruction>
        ensures { result ≡ short_in self.row self.length self.prefix self.source_mode self.source self.destination_mode self.destination }
    {
        if 0x8000 <= self.row
            || self.length != SHORT_LENGTH
            || self.prefix != 0
            || self.source_mode != 0
            || self.destination_mode != 0
        {
            return None;
        }
        match find_entry(find_short(short_opcode(self.row)), self.row as u16) {
            ShortEntry::Row(row, _, _) if list_short(row).base == self.row => {
                Some(Instruction::Short(ShortInstruction {
                    row,
                    source: self.source,
                    destination: self.destination,
                }))
            }
            _ => None,
        }
    }

    // The length is the form's and the prefix's.
    fn length_agrees(self, wide: Wide) -> bool
        ensures { result ≡ length_agrees wide self.length self.prefix }
    {
        self.length == wide_length(wide) + prefix_length(self.prefix == 1)
    }

    fn dyadic_in(self, wide: Wide) -> Option<Instruction>
        ensures { result ≡ dyadic_in wide self.row self.prefix self.source_mode self.source self.destination_mode self.destination }
    {
        if 1 < self.prefix
            || REGISTER_MODE < self.source_mode
            || REGISTER_MODE < self.destination_mode
        {
            return None;
        }
        match find_dyadic(self.row) {
            Entry::Row(row, _) => Some(Instruction::Dyadic(DyadicInstruction {
                row,
                wide,
                prefix: self.prefix == 1,
                source: operand_in(self.source_mode, self.source),
                destination: operand_in(self.destination_mode, self.destination),
            })),
            Entry::Unimplemented | Entry::Unlisted => None,
        }
    }

    fn monadic_in(self) -> Option<Instruction>
        ensures { result ≡ monadic_in self.row self.length self.prefix self.source_mode self.source self.destination_mode self.destination }
    {
        if !self.length_agrees(Wide::Three)
            || 1 < self.prefix
            || self.destination_mode != 0
            || self.destination != 0
        {
            return None;
        }
        match (find_monadic(self.row), monadic_mode_in(self.source_mode)) {
            (Entry::Row(row, _), Some(mode)) => Some(Instruction::Monadic(MonadicInstruction {
                row,
                prefix: self.prefix == 1,
                mode,
                value: self.source,
            })),
            _ => None,
        }
    }
}

// By value, since of a lent block it is not known that it has eight words.
pub fn instruction_in(block: [u32; 8]) -> Option<Instruction>
    ensures { result ≡ instruction_in block }
{
    let [
        kind,
        row,
        length,
        prefix,
        source_mode,
        source,
        destination_mode,
        destination,
    ] = block;
    let words = Words {
        row,
        length,
        prefix,
        source_mode,
        source,
        destination_mode,
        destination,
    };
    match kind {
        1 => words.short_in(),
        2 if words.length_agrees(Wide::Three) => words.dyadic_in(Wide::Three),
        2 if words.length_agrees(Wide::Five) => words.dyadic_in(Wide::Five),
        3 => words.monadic_in(),
        _ => None,
    }
}
