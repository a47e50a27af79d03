// Totals of the lines that are printed, kept as they are printed, modulo 2^32.
ghost use Rattle.std.specs.Prelude.{◌≡◌};
ghost use Rattle.board_lines.specs.Printouts.{start_tally, refusal_added, run_added};

use crate::Tally;

// The stop of a refused run; a line has two digits for it.
const REFUSED_STOP: u32 = 1;

impl Tally {
    // Before the first line.
    pub fn start() -> Tally
        ensures { result ≡ start_tally }
    {
        Tally {
            runs: 0,
            steps: 0,
            refused: 0,
        }
    }

    // An 82 line.
    pub fn add_refusal(&mut self)
        ensures { self.new ≡ refusal_added self.old }
    {
        self.refused = self.refused.wrapping_add(1);
    }

    // An 83 line.
    pub fn add_run(&mut self, steps: u32, stop: u32)
        ensures { self.new ≡ run_added steps stop self.old }
    {
        self.runs = self.runs.wrapping_add(1);
        self.steps = self.steps.wrapping_add(steps);
        if stop % 256 == REFUSED_STOP {
            self.add_refusal();
        }
    }
}
