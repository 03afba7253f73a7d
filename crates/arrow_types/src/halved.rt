// Keeping rows in halves, and bringing them back.
ghost use Rattle.std.specs.Prelude.{◌≡◌};
ghost use Rattle.tokenizer.specs.Answer.{answer_of};
ghost use Rattle.half_rows.specs.HalfRows.{number_of, half_rows_answer, half_rows_words, wide_rows_answer, wide_rows_words};
ghost use Rattle.arrow_types.specs.Status.{status_of, value_of};

use datatype::Tree;
use half_rows::{NotKept, from_half_rows, to_half_rows};
use tokenizer::Numbered;

// An answer as two numbers: the status, and the row count, 0 where it was refused.
#[tactic(auto, unfolding(crate::specs::Status::status_of, crate::specs::Status::value_of))]
fn kept_status(answer: Result<usize, NotKept>, count: &mut usize) -> u32
    ensures status { result ≡ status_of (answer_of number_of answer) }
    ensures count { count.new ≡ value_of (answer_of number_of answer) }
{
    match answer {
        Ok(rows) => {
            *count = rows;
            0
        }
        Err(refused) => {
            *count = 0;
            refused.number()
        }
    }
}

// Keeps a sound tree's rows in halves.
pub fn arrow_types_to_half_rows(
    text: &[u8],
    names: &[u8],
    rows: &[u32],
    halves: &mut [u16],
    count: &mut usize,
) -> u32
    ensures status { result ≡ status_of (half_rows_answer text.now names.now rows.now halves.old) }
    ensures count { count.new ≡ value_of (half_rows_answer text.now names.now rows.now halves.old) }
    ensures contents { halves.new ≡ half_rows_words text.now names.now rows.now halves.old }
{
    kept_status(to_half_rows(Tree { text, names, rows }, halves), count)
}

// Brings rows in halves back.
pub fn arrow_types_from_half_rows(
    text: &[u8],
    names: &[u8],
    halves: &[u16],
    rows: &mut [u32],
    count: &mut usize,
) -> u32
    ensures status { result ≡ status_of (wide_rows_answer text.now names.now halves.now rows.old) }
    ensures count { count.new ≡ value_of (wide_rows_answer text.now names.now halves.now rows.old) }
    ensures contents { rows.new ≡ wide_rows_words text.now names.now halves.now rows.old }
{
    kept_status(from_half_rows(text, names, halves, rows), count)
}
