// The lines of an input that is read piece by piece, and what programs that read them share: reading on, writing, and what
// they say where that fails.

#![tactic(auto)]

ghost use Rattle.std.specs.Prelude.{◌≡◌, ◌≤◌, length};
ghost use Rattle.input_lines.specs.Lines.{line_end};
ghost use Rattle.input_lines.specs.Ahead.{line_from, next_of};

use datatype::rows::MAX_TEXT;
pub use failure::{Failure, refuse_argument};
pub use streams::{move_to_front, read_behind, write_out};

mod failure;
mod streams;

// A place in what was read, and whether what comes next there is the rest of a line that was taken already.
#[derive(Clone, Copy)]
pub struct Place {
    pub from: usize,
    pub skip: bool,
}

// What comes next: a whole line, by where it starts and ends; a line that is too long for a text, by where it starts; or
// only part of a line, and the place to go on from once more is read.
#[derive(Clone, Copy)]
pub enum NextLine {
    Whole(usize, usize),
    Long(usize),
    Unfinished(Place),
}

// Where the line that begins at a place ends: at the first newline there or behind it, else at the end of the input.
#[tactic(auto, using(crate::proofs::Ends::found_at), unfolding(crate::specs::Lines::line_end))]
pub fn line_end(input: &[u8], from: usize) -> usize
    ensures { result ≡ line_end input.now from }
{
    let Some(rest) = input.get(from..) else {
        return input.len();
    };
    from + rest.iter().position(|c| *c == b'\n').unwrap_or(rest.len())
}

// The line that begins at a place, if it is whole or too long.
#[tactic(auto, unfolding(crate::specs::Ahead::line_from))]
fn line_from(input: &[u8], start: usize) -> NextLine
    requires { start ≤ length input.now }
    ensures { result ≡ line_from input.now start }
{
    let end = line_end(input, start);
    if end < input.len() {
        return NextLine::Whole(start, end);
    }
    if input.len() - start > MAX_TEXT {
        return NextLine::Long(start);
    }
    NextLine::Unfinished(Place {
        from: start,
        skip: false,
    })
}

// What comes next at a place: nothing is taken, so the caller goes on behind it. Behind the input's end nothing is left.
#[tactic(auto, unfolding(crate::specs::Ahead::next_of))]
pub fn next_line(input: &[u8], place: Place) -> NextLine
    ensures { result ≡ next_of input.now place }
{
    let from = place.from.min(input.len());
    if !place.skip {
        return line_from(input, from);
    }
    let end = line_end(input, from);
    if end < input.len() {
        return line_from(input, end + 1);
    }
    NextLine::Unfinished(Place {
        from: input.len(),
        skip: true,
    })
}
