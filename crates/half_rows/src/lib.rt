//! Rows in halves: thirteen 16-bit words to a row, for keeping many trees in little memory, and back. Reader and printer work
//! on wide rows.

#![tactic(auto)]

ghost use Rattle.std.specs.Prelude.{◌≡◌};
ghost use Rattle.std.proofs.Common.{rules};
ghost use Rattle.tokenizer.specs.Answer.{answer_of};
ghost use Rattle.half_rows.specs.HalfRows.{number_of, half_rows_answer, half_rows_words, wide_rows_answer, wide_rows_words};
ghost use Rattle.half_rows.specs.Laws.{ComesBack, KeptAlike, KeepsAgain, BringsSound};

mod halves;
mod keep;

use datatype::Tree;
use datatype::rows::ROW_WORDS;
pub use halves::Halves;
use row_table::{is_sound, is_sound_table};
use thiserror::Error;
use tokenizer::Numbered;

/// How many half words a row takes.
pub const HALF_ROW_WORDS: usize = 13;

/// Why rows were not kept in halves, or not brought back.
#[derive(Clone, Copy, Debug, Drop, PartialEq, Eq, Error)]
pub enum NotKept {
    /// Also half words that are no whole rows.
    #[error("text and rows are no sound tree")]
    NotSound = 17,
    #[error("there is no room for what is to be written")]
    NoRoom = 28,
}

impl Numbered for NotKept {
    ghost numbered = { number_of };

    ghost listed = { Prim.search rules };

    fn number(self) -> u32 {
        self as u32
    }
}

/// Keeps a sound tree's rows in halves, at the start of the half words lent: how many rows. The text stays beside them, since
/// they hold places in it. A refusal changes nothing.
pub fn to_half_rows(tree: Tree<'_>, halves: &mut [u16]) -> Result<usize, NotKept>
    ensures answer { answer_of number_of result ≡ half_rows_answer tree.entry.text.now tree.entry.names.now tree.entry.rows.now halves.old }
    ensures contents { halves.new ≡ half_rows_words tree.entry.text.now tree.entry.names.now tree.entry.rows.now halves.old }
    ensures comes_back { ComesBack tree.entry.text.now tree.entry.names.now tree.entry.rows.now (answer_of number_of result) halves.new }
    ensures kept_alike { KeptAlike tree.entry.text.now tree.entry.names.now tree.entry.rows.now }
{
    if !is_sound(tree) {
        return Err(NotKept::NotSound);
    }
    let count = tree.rows.len() / ROW_WORDS;
    if halves.len() / HALF_ROW_WORDS < count {
        return Err(NotKept::NoRoom);
    }
    keep::put_halves(tree.rows, count, halves);
    Ok(count)
}

/// Brings rows in halves back: their wide rows at the start of the words lent, how many rows. They are to be a sound tree over
/// text and name list, in whole thirteens. A refusal changes nothing.
pub fn from_half_rows(
    text: &[u8],
    names: &[u8],
    halves: &[u16],
    rows: &mut [u32],
) -> Result<usize, NotKept>
    ensures answer { answer_of number_of result ≡ wide_rows_answer text.now names.now halves.now rows.old }
    ensures contents { rows.new ≡ wide_rows_words text.now names.now halves.now rows.old }
    ensures keeps_again { KeepsAgain text.now names.now halves.now (answer_of number_of result) rows.new }
    ensures brings_sound { BringsSound text.now names.now halves.now rows.old (answer_of number_of result) }
{
    let count = halves.len() / HALF_ROW_WORDS;
    if halves.len() != HALF_ROW_WORDS * count {
        return Err(NotKept::NotSound);
    }
    let kept = Halves { halves };
    if !is_sound_table(text, names, kept) {
        return Err(NotKept::NotSound);
    }
    if rows.len() / ROW_WORDS < count {
        return Err(NotKept::NoRoom);
    }
    keep::put_words(kept, count, rows);
    Ok(count)
}
