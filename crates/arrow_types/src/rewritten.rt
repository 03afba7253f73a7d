// Rewriting a text for services: the answer as numbers.
ghost use Rattle.std.specs.Prelude.{◌≡◌};
ghost use Rattle.arrow_types.specs.Step.{told, told_of};
ghost use Rattle.datatype_parse.specs.Parse.{parse_rows};
ghost use Rattle.datatype_display.specs.Print.{default_spelling};
ghost use Rattle.display_length.specs.declared.words.Spelling.TheVariants.{Micro};
ghost use Rattle.rewrite.specs.Rewrite.{rewritten_means, rewrite_answer, rewrite_bytes, rewrite_back};

use datatype_display::DEFAULT_SPELLING;
use display_length::Spelling;
use rewrite::NotRewritten;
use round_trip::PrintedAndRead;
use tokenizer::Numbered;

// A rewrite's answer as five numbers, each 0 where there is none.
#[tactic(auto, unfolding(parser::specs::Answer::refusal_in, rewrite::specs::Rewrite::rewritten_means, crate::specs::Step::told_of))]
fn step(
    answer: Result<PrintedAndRead, NotRewritten>,
    length: &mut usize,
    count: &mut usize,
    number: &mut u32,
    place: &mut usize,
) -> u32
    ensures told { told result length.new count.new number.new place.new ≡ told_of (rewritten_means answer) }
{
    *length = 0;
    *count = 0;
    *number = 0;
    *place = 0;
    match answer {
        Ok(read) => {
            *length = read.bytes;
            *count = read.rows;
            0
        }
        Err(NotRewritten::NotRead(error)) => {
            *number = error.refusal.number();
            *place = error.place;
            1
        }
        Err(NotRewritten::NotPrinted(refusal)) => {
            *number = refusal.number();
            2
        }
        Err(NotRewritten::NotReadBack(error)) => {
            *number = error.refusal.number();
            *place = error.place;
            3
        }
        Err(NotRewritten::Differs) => 4,
    }
}

// Rewrites a type text in the default spelling: reads it, prints it, reads back what was printed and compares the two
// trees. The result is the step that refused, 0 for none: 1 reading, 2 printing, 3 reading back, 4 comparing.
#[tactic(auto, unfolding(datatype_display::specs::Print::default_spelling))]
pub fn arrow_types_rewrite(
    text: &[u8],
    rows: &mut [u32],
    out: &mut [u8],
    back: &mut [u32],
    length: &mut usize,
    count: &mut usize,
    number: &mut u32,
    place: &mut usize,
) -> u32
    ensures told { told result length.new count.new number.new place.new ≡ told_of (rewrite_answer default_spelling text.now rows.old out.old back.old) }
    ensures contents { rows.new ≡ parse_rows text.now rows.old }
    ensures bytes { out.new ≡ rewrite_bytes default_spelling text.now rows.old out.old back.old }
    ensures again { back.new ≡ rewrite_back default_spelling text.now rows.old out.old back.old }
{
    let rewritten = rewrite::rewrite(DEFAULT_SPELLING, text, rows, out, back);
    step(rewritten, length, count, number, place)
}

// Rewrites a type text, with microseconds as the Rust spells them.
pub fn arrow_types_rewrite_micro(
    text: &[u8],
    rows: &mut [u32],
    out: &mut [u8],
    back: &mut [u32],
    length: &mut usize,
    count: &mut usize,
    number: &mut u32,
    place: &mut usize,
) -> u32
    ensures told { told result length.new count.new number.new place.new ≡ told_of (rewrite_answer Micro text.now rows.old out.old back.old) }
    ensures contents { rows.new ≡ parse_rows text.now rows.old }
    ensures bytes { out.new ≡ rewrite_bytes Micro text.now rows.old out.old back.old }
    ensures again { back.new ≡ rewrite_back Micro text.now rows.old out.old back.old }
{
    let rewritten = rewrite::rewrite(Spelling::Micro, text, rows, out, back);
    step(rewritten, length, count, number, place)
}
