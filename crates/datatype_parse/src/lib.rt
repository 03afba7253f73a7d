// The type reader: a whole text becomes rows, or is refused.

#![tactic(auto)]

ghost use Rattle.std.specs.Prelude.{◌≡◌};
ghost use Rattle.parser.specs.Answer.{read_answer};
ghost use Rattle.datatype_parse.specs.Parse.{text_over, parse_answer, parse_rows};
ghost use Rattle.datatype_parse.specs.RowsToLend.{rows_to_lend};

use datatype::rows::MAX_ROWS;
use parser::ReadError;
use tokenizer::Refusal;

// Whether nothing but spaces is left of a text.
#[tactic(auto, using(crate::proofs::Whole::over_steps))]
fn text_over(text: &[u8], at: usize) -> bool
    ensures { result ≡ text_over text.now at }
{
    tokenizer::skip_spaces(text, at) >= text.len()
}

// Reads a type text into lent rows: the row count, or the refusal. A refused text leaves the rows all zeros.
#[tactic(auto, using(crate::proofs::Whole::read_steps))]
pub fn parse_data_type(text: &[u8], rows: &mut [u32]) -> Result<usize, ReadError>
    ensures answer { read_answer result ≡ parse_answer text.now rows.old }
    ensures contents { rows.new ≡ parse_rows text.now rows.old }
{
    let read = parser::parse_first_type(text, rows)?;
    if text_over(text, read.next) {
        unchecked_rows::set_first_parents(rows, read.used);
        return Ok(read.used);
    }
    rows.fill(0);
    Err(ReadError {
        place: tokenizer::skip_spaces(text, read.next),
        refusal: Refusal::TrailingText,
    })
}

// The fewest bytes that a row of an accepted text takes.
const ROW_BYTES: usize = 5;

// How many rows to lend for a text of so many bytes: with these it is accepted if it is accepted with more, and fills the
// same rows.
#[tactic(auto, unfolding(crate::specs::RowsToLend::rows_to_lend))]
pub fn rows_to_lend(bytes: usize) -> usize
    ensures { result ≡ rows_to_lend bytes }
{
    (bytes.saturating_add(1) / ROW_BYTES).min(MAX_ROWS)
}
