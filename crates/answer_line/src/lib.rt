// One line of the line program: a text, and the answer that is printed for it.

#![tactic(auto)]

ghost use Rattle.std.specs.Prelude.{◌≡◌, ◌≤◌, length};
ghost use Rattle.datatype_parse.specs.Parse.{parse_rows};
ghost use Rattle.answer_line.specs.Line.{line_words, answer_bytes, line_answer, line_answered, line_rows, line_out};
ghost use Rattle.answer_line.specs.Internal.Steps.{Answers};

mod tree;
mod write;

pub use datatype::rows::LINE_WORDS;
use datatype::rows::{MAX_TEXT, ROW_WORDS};
use datatype::{Field, Tree};
use row_table::nodes::SoundTree;

// The bytes that the longest answer takes: `ok 1024 64 `, a printed text of 16,384 bytes, and a newline.
pub const ANSWER_BYTES: usize = 11 + MAX_TEXT + 1;

// The answer to a line, where there is room for every line's.
#[tactic(auto, using(crate::proofs::Whole::reads), unfolding(crate::specs::Line::line_answer))]
fn answer_in(line: &[u8], rows: &mut [u32], out: &mut [u8; ANSWER_BYTES]) -> usize
    requires { line_words ≤ length rows.old }
    ensures answer { Answers (line_answer line.now) out.old result out.new }
    // The caller's proof has no other way to the array's length.
    ensures room { length out.new ≡ answer_bytes }
    ensures contents { rows.new ≡ parse_rows line.now rows.old }
{
    match datatype_parse::parse_data_type(line, rows) {
        Err(error) => write::put_no_at(out, error),
        Ok(n) => {
            // What was just read is sound, and is not tested again.
            let tree = Tree {
                text: line,
                names: &Field::NAME_LIST,
                rows: &rows[..ROW_WORDS * n],
            };
            tree::answer_tree(&SoundTree { tree }, out)
        }
    }
}

// Answers one line, whose newline is cut off: the answer stands at the start of the output, and past it what the output
// held before. The rows hold what reading the line leaves in them. The bytes of the answer; or none, where the buffers
// lent are too small for some line, and nothing was done.
#[tactic(auto, unfolding(crate::specs::Line::line_answered, crate::specs::Line::line_rows, crate::specs::Line::line_out))]
pub fn answer_line(line: &[u8], rows: &mut [u32], out: &mut [u8]) -> Option<usize>
    ensures answer { result ≡ line_answered line.now rows.old out.old }
    ensures contents { rows.new ≡ line_rows line.now rows.old out.old }
    ensures bytes { out.new ≡ line_out line.now rows.old out.old }
{
    // The rows are lent whole, and not the first of them: a refusal sets each of their words to 0.
    if rows.len() < LINE_WORDS {
        return None;
    }
    Some(answer_in(line, rows, out.first_chunk_mut()?))
}
