// The printed length of a sound tree: a row's own bytes plus its children's.

#![tactic(auto)]

ghost use Rattle.std.specs.Prelude.{◌≡◌};
ghost use Rattle.tokenizer.specs.Answer.{number_of, answer_of};
ghost use Rattle.display_length.specs.PrintedLength.{printed_length};

use crate::latin::is_latin_tree;
use crate::strings::is_clean;
use datatype::Tree;
use datatype::rows::MAX_LEVELS;
use row_table::nodes::SoundTree;
use tokenizer::Refusal;

mod around;
mod latin;
mod names;
mod own;
mod printed;
mod strings;
mod tree;
mod words;

pub use names::are_default_names;
pub use printed::{Printed, PrintedNode};
pub use strings::LEAD;
pub use words::{Spelling, interval_word, kind_word, mode_word, sorted_word, unit_word};

/// How many bytes a tree that is sound prints in a spelling.
#[tactic(auto, using(crate::proofs::Rules::printed_steps))]
pub fn printed_length_of(spelling: Spelling, whole: &SoundTree<'_>) -> Result<usize, Refusal>
    ensures { answer_of number_of result ≡ printed_length spelling whole.now.tree.text.now whole.now.tree.names.now whole.now.tree.rows.now }
{
    let clean = is_clean(whole.tree.text);
    if !is_latin_tree(whole, clean) {
        return Err(Refusal::NotLatin);
    }
    let printed = Printed {
        whole: *whole,
        spelling,
        clean,
    };
    Ok(printed.root().type_length(MAX_LEVELS))
}

// How many bytes a tree prints in a spelling.
#[tactic(auto, using(crate::proofs::PrintedLaws::unsound_steps))]
pub fn printed_length(spelling: Spelling, tree: Tree<'_>) -> Result<usize, Refusal>
    ensures { answer_of number_of result ≡ printed_length spelling tree.entry.text.now tree.entry.names.now tree.entry.rows.now }
{
    let Some(whole) = SoundTree::of(tree) else {
        return Err(Refusal::NotSound);
    };
    printed_length_of(spelling, &whole)
}
