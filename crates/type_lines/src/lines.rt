// Answering the lines that stand in a buffer. Whatever follows them in the input, what is printed at last stays the
// same.
ghost use Rattle.std.specs.Prelude.{◌≡◌, ◌+◌, ◌≤◌, length};
ghost use Rattle.answer_line.specs.Line.{answer_bytes};
ghost use Rattle.type_lines.specs.Run.{Inside, Goes, Halts, Unfinished, Wrote, Ends};

use crate::{BUFFER_BYTES, Progress};
use answer_line::{ANSWER_BYTES, LINE_WORDS};
use input_lines::{NextLine, Place, next_line};

// The output, and the rows that each line is read into.
#[derive(Drop)]
pub(crate) struct Output {
    rows: [u32; LINE_WORDS],
    pub(crate) bytes: [u8; BUFFER_BYTES],
}

impl Output {
    pub(crate) fn new() -> Output {
        Output {
            rows: [0; LINE_WORDS],
            bytes: [0; BUFFER_BYTES],
        }
    }

    // Answers a line behind the answers that are in the output, and gives the place behind its answer.
    fn answer_at(&mut self, line: &[u8], wrote: usize) -> usize
        requires { wrote + answer_bytes ≤ length self.old.bytes }
        ensures { Wrote line.now self.old.bytes wrote result self.new.bytes × (length self.new.bytes ≡ length self.old.bytes) }
    {
        let out = &mut self.bytes[wrote..];
        wrote + answer_line::answer_line(line, &mut self.rows, out).unwrap_or(0)
    }

    // Answers what can be answered of the bytes read, until the output is short of room or no whole line is left.
    #[tactic(auto, using(crate::proofs::Going::lines_steps))]
    pub(crate) fn answer_lines(&mut self, input: &[u8], p: Progress) -> Progress
        requires { Inside input.now p self.old.bytes }
        ensures { Goes input.now p self.old.bytes result self.new.bytes × Halts input.now result self.new.bytes }
    {
        let mut place = Place {
            from: p.from,
            skip: p.skip,
        };
        let mut wrote = p.wrote;
        while wrote <= self.bytes.len() - ANSWER_BYTES {
            match next_line(input, place) {
                NextLine::Whole(start, end) => {
                    wrote = self.answer_at(&input[start..end], wrote);
                    place = Place {
                        from: end + 1,
                        skip: false,
                    };
                }
                NextLine::Long(start) => {
                    wrote = self.answer_at(&input[start..], wrote);
                    place = Place {
                        from: input.len(),
                        skip: true,
                    };
                }
                NextLine::Unfinished(left) => {
                    return Progress {
                        from: left.from,
                        wrote,
                        skip: left.skip,
                    };
                }
            }
        }
        Progress {
            from: place.from,
            wrote,
            skip: place.skip,
        }
    }

    // Answers what is left at the end of the input: a line without a newline, unless it is empty or answered already.
    #[tactic(auto, using(crate::proofs::Going::last_steps))]
    pub(crate) fn answer_last(&mut self, line: &[u8], skip: bool) -> usize
        requires { Unfinished line.now }
        ensures { Ends line.now skip self.old.bytes result self.new.bytes }
    {
        if skip || line.is_empty() {
            return 0;
        }
        self.answer_at(line, 0)
    }
}
