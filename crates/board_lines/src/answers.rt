// The lines that are printed and counted; a line for which there is no room is left out.
ghost use Rattle.std.specs.Prelude.{◌≡◌, length};
ghost use Rattle.refusals.specs.Numbers.{refusal_of};
ghost use Rattle.hex_digits.specs.Output.{contents, printed};
ghost use Rattle.board_lines.specs.Answers.{refused_line, unless_done, ran_line};
ghost use Rattle.board_lines.specs.Printouts.{printout_of, tallied, totalled};

use crate::Printer;
use hex_digits::Writer;
use refusals::Refusal;

// The kinds of lines, and their bytes with the newline. A kind is two digits that are printed, so it stays a number.
const REFUSED_KIND: u32 = 0x82;

const REFUSED_SIZE: usize = 13;

const RAN_KIND: u32 = 0x83;

const RAN_SIZE: usize = 31;

const TOTALS_KIND: u32 = 0x8F;

const TOTALS_SIZE: usize = 27;

// The 82 line of a refusal's number and a line's, into a buffer of its size: there the compiler knows that each part has room.
fn write_refused(out: &mut [u8], refusal: u32, line: u32)
    requires { length out.old ≡ 13 }
    ensures { out.new ≡ refused_line refusal line }
{
    let mut text = Writer {
        buffer: out,
        place: 0,
    };
    text.put_digits(2, REFUSED_KIND);
    text.put_digits(2, refusal);
    text.put_digits(8, line);
    text.put_byte(b'\n');
}

// The 82 line of a refusal's number, whatever it is, and a line's, where nothing is counted.
pub fn put_refusal(output: &mut Writer, refusal: u32, line: u32)
    ensures lent { output.new.buffer.ghost_name ≡ output.old.buffer.ghost_name }
    ensures text { contents output.new ≡ printed (refused_line refusal line) (contents output.old) }
{
    if output.has_room(REFUSED_SIZE) {
        let place = output.place;
        let end = place + REFUSED_SIZE;
        write_refused(&mut output.buffer[place..end], refusal, line);
        output.place = end;
    }
}

// The 83 line of a run, into a buffer of its size.
fn write_ran(out: &mut [u8], steps: u32, stop: u32, code: u32, pc: u32, psw: u32)
    requires { length out.old ≡ 31 }
    ensures { out.new ≡ ran_line steps stop code pc psw }
{
    let mut line = Writer {
        buffer: out,
        place: 0,
    };
    line.put_digits(2, RAN_KIND);
    line.put_digits(8, steps);
    line.put_digits(2, stop);
    line.put_digits(2, code);
    line.put_digits(8, pc);
    line.put_digits(8, psw);
    line.put_byte(b'\n');
}

impl Printer<'_> {
    // The 82 line of a refusal's number and a line's.
    pub fn put_refused(&mut self, refusal: u32, line: u32)
        ensures lent { self.new.output.buffer.ghost_name ≡ self.old.output.buffer.ghost_name }
        ensures text { printout_of self.new ≡ tallied (refused_line refusal line) (printout_of self.old) }
    {
        if self.output.has_room(REFUSED_SIZE) {
            put_refusal(&mut self.output, refusal, line);
            self.tally.add_refusal();
        }
    }

    // For a caller that has a number: its 82 line, or nothing for 0, which refuses nothing.
    #[tactic(auto, using(crate::proofs::TotalsLaws::tallied_none))]
    pub fn put_unless_zero(&mut self, line: u32, refusal: u32)
        ensures lent { self.new.output.buffer.ghost_name ≡ self.old.output.buffer.ghost_name }
        ensures text { printout_of self.new ≡ tallied (unless_done line refusal) (printout_of self.old) }
    {
        if refusal != 0 {
            self.put_refused(refusal, line);
        }
    }

    // The 82 line of a line that was refused; one that was done prints nothing.
    #[tactic(auto, using(crate::proofs::TotalsLaws::tallied_none))]
    pub fn put_unless_done(&mut self, line: u32, done: Result<(), Refusal>)
        ensures lent { self.new.output.buffer.ghost_name ≡ self.old.output.buffer.ghost_name }
        ensures text { printout_of self.new ≡ tallied (unless_done line (refusal_of done)) (printout_of self.old) }
    {
        if let Err(refusal) = done {
            self.put_refused(refusal.number(), line);
        }
    }

    // The 83 line of a run.
    pub fn put_ran(&mut self, steps: u32, stop: u32, code: u32, pc: u32, psw: u32)
        ensures lent { self.new.output.buffer.ghost_name ≡ self.old.output.buffer.ghost_name }
        ensures text { printout_of self.new ≡ tallied (ran_line steps stop code pc psw) (printout_of self.old) }
    {
        if self.output.has_room(RAN_SIZE) {
            let place = self.output.place;
            let end = place + RAN_SIZE;
            write_ran(
                &mut self.output.buffer[place..end],
                steps,
                stop,
                code,
                pc,
                psw,
            );
            self.output.place = end;
            self.tally.add_run(steps, stop);
        }
    }

    // The 8F line, at the end of input.
    pub fn put_totals(&mut self)
        ensures lent { self.new.output.buffer.ghost_name ≡ self.old.output.buffer.ghost_name }
        ensures text { printout_of self.new ≡ totalled (printout_of self.old) }
    {
        if self.output.has_room(TOTALS_SIZE) {
            self.output.put_digits(2, TOTALS_KIND);
            self.output.put_digits(8, self.tally.runs);
            self.output.put_digits(8, self.tally.steps);
            self.output.put_digits(8, self.tally.refused);
            self.output.put_byte(b'\n');
        }
    }
}
