// Counting the lines that stand in a buffer. Whatever follows them in the input, the counts at last stay the same.
ghost use Rattle.std.specs.Prelude.{◌≡◌, []};
ghost use Rattle.input_lines.specs.Ahead.{Partial};
ghost use Rattle.tally.specs.Tally.{tally};
ghost use Rattle.type_counts.specs.Counting.{CountsLines, LastMeans};

use datatype::rows::LINE_WORDS;
use input_lines::{NextLine, Place, next_line};
use tally::{NotCounted, Tally};

// The counts, and the rows that each line is read into.
#[derive(Drop)]
pub(crate) struct Counter {
    rows: [u32; LINE_WORDS],
    pub(crate) tally: Tally,
}

impl Counter {
    pub(crate) fn new() -> Counter
        ensures { result.tally ≡ tally [] }
    {
        Counter {
            rows: [0; LINE_WORDS],
            tally: Tally::new(),
        }
    }

    // Counts the lines from a place on, until no whole line is left, and gives the place of what is left.
    #[tactic(auto, using(crate::proofs::Lines::lines_steps))]
    pub(crate) fn count_lines(&mut self, input: &[u8], start: Place) -> Result<Place, NotCounted>
        ensures { CountsLines self.old.tally input.now start result self.new.tally }
    {
        let mut place = start;
        loop {
            match next_line(input, place) {
                NextLine::Whole(from, end) => {
                    self.tally.add(&input[from..end], &mut self.rows)?;
                    place = Place {
                        from: end + 1,
                        skip: false,
                    };
                }
                NextLine::Long(from) => {
                    self.tally.add(&input[from..], &mut self.rows)?;
                    place = Place {
                        from: input.len(),
                        skip: true,
                    };
                }
                NextLine::Unfinished(left) if left.from < input.len() && self.tally.is_full() => {
                    return Err(NotCounted::TooManyLines);
                }
                NextLine::Unfinished(left) => return Ok(left),
            }
        }
    }

    // Counts what is left at the end of the input: a line without a newline, unless it is empty or counted already.
    #[tactic(auto, using(crate::proofs::Lines::last_steps))]
    pub(crate) fn count_last(&mut self, line: &[u8], skip: bool) -> Result<(), NotCounted>
        requires { Partial line.now }
        ensures { LastMeans self.old.tally line.now skip result self.new.tally }
    {
        if skip || line.is_empty() {
            return Ok(());
        }
        self.tally.add(line, &mut self.rows)
    }
}
