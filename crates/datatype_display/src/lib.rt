// The printer: a sound tree becomes its text, as the Rust's `Display` writes it.

#![tactic(auto)]

ghost use Rattle.std.specs.Prelude.{◌≡◌};
ghost use Rattle.tokenizer.specs.Answer.{number_of, answer_of};
ghost use Rattle.datatype_display.specs.Print.{default_spelling, print_answer, print_bytes};

use datatype::Tree;
use datatype::rows::{MAX_LEVELS, MAX_TEXT};
use display_length::{Printed, Spelling, printed_length_of};
use row_table::nodes::SoundTree;
use tokenizer::Refusal;
use write::Printer;

mod display;
mod escape;
mod leaves;
mod words;
mod write;

// The spelling where none is named.
pub const DEFAULT_SPELLING: Spelling = Spelling::Us;

// Prints a tree into a lent buffer, in the default spelling.
#[tactic(auto, unfolding(crate::specs::Print::default_spelling))]
pub fn print_data_type(tree: Tree<'_>, out: &mut [u8]) -> Result<usize, Refusal>
    ensures result_value { answer_of number_of result ≡ print_answer default_spelling tree.entry.text.now tree.entry.names.now tree.entry.rows.now out.old }
    ensures out_after { out.new ≡ print_bytes default_spelling tree.entry.text.now tree.entry.names.now tree.entry.rows.now out.old }
{
    print_data_type_with(DEFAULT_SPELLING, tree, out)
}

// Prints a tree into a lent buffer: its text in the spelling chosen, and past it what the buffer held before. A refused
// tree changes nothing.
#[tactic(auto, using(crate::proofs::Prints::unsound_steps))]
pub fn print_data_type_with(
    spelling: Spelling,
    tree: Tree<'_>,
    out: &mut [u8],
) -> Result<usize, Refusal>
    ensures result_value { answer_of number_of result ≡ print_answer spelling tree.entry.text.now tree.entry.names.now tree.entry.rows.now out.old }
    ensures out_after { out.new ≡ print_bytes spelling tree.entry.text.now tree.entry.names.now tree.entry.rows.now out.old }
{
    let Some(whole) = SoundTree::of(tree) else {
        return Err(Refusal::NotSound);
    };
    print_sound_tree(spelling, &whole, out)
}

/// The same of a tree that is known to be sound, which is not tested again.
#[tactic(auto, using(crate::proofs::Prints::print_steps))]
pub fn print_sound_tree(
    spelling: Spelling,
    whole: &SoundTree<'_>,
    out: &mut [u8],
) -> Result<usize, Refusal>
    ensures result_value { answer_of number_of result ≡ print_answer spelling whole.now.tree.text.now whole.now.tree.names.now whole.now.tree.rows.now out.old }
    ensures out_after { out.new ≡ print_bytes spelling whole.now.tree.text.now whole.now.tree.names.now whole.now.tree.rows.now out.old }
{
    let length = printed_length_of(spelling, whole)?;
    let room = out.len().min(MAX_TEXT);
    if room < length {
        return Err(Refusal::PrintTooLong);
    }
    let printed = Printed {
        whole: *whole,
        spelling,
        clean: false,
    };
    let mut printer = Printer { out, at: 0 };
    printer.put_type(MAX_LEVELS, &printed.root());
    Ok(length)
}
