// Whether a tree has the columns that a caller needs: its root is a Struct, and each need is met by the root's one field
// of its name.

#![tactic(auto)]

ghost use Rattle.std.specs.Prelude.{◌≡◌};
ghost use Rattle.std.proofs.Common.{rules};
ghost use Rattle.tokenizer.specs.Answer.{answer_of};
ghost use Rattle.needs.specs.Answer.{number_of};
ghost use Rattle.needs.specs.Needs.{need_name, are_named, first_unmet, need_of, needs_of};
ghost use Rattle.needs.specs.Internal.Columns.{columns_in};

mod columns;

use crate::columns::{columns_of, meet, sound_tree};
use datatype::Tree;
use row_table::nodes::Nodes;
use thiserror::Error;
use tokenizer::Numbered;

// The most needs that are checked at once.
pub const MAX_NEEDS: usize = 32;

// A column that is needed: where its name stands in a text of names; its kind; words 4 and 5 of its row; whether null is
// allowed, where a non-null column passes, too; whether a zone must stand. In C's layout, since services lend a slice of
// them.
#[repr(C)]
#[derive(Clone, Copy, Debug, PartialEq, Eq)]
pub struct Need {
    pub start: u32,
    pub size: u32,
    pub kind: u32,
    pub number: u32,
    pub scale: u32,
    pub null_allowed: bool,
    pub zoned: bool,
}

/// Why needs were not checked.
#[derive(Clone, Copy, Debug, Drop, PartialEq, Eq, Error)]
pub enum NotChecked {
    #[error("text and rows are no sound tree")]
    NotSound = 17,
    #[error("the root is not a Struct")]
    NotStruct = 25,
    #[error("there are more than 32 needs")]
    TooManyNeeds = 26,
    #[error("a need's name is empty or outside its text")]
    WrongName = 27,
}

impl Numbered for NotChecked {
    ghost numbered = { number_of };

    ghost listed = { Prim.search rules };

    fn number(self) -> u32 {
        self as u32
    }
}

impl Need {
    // The need's name, a part of the text of names: empty where it runs past the text's end.
    fn name(self, text: &[u8]) -> &[u8]
        ensures { result.now ≡ need_name text.now self }
    {
        let from = self.start as usize;
        text.get(from..from + self.size as usize).unwrap_or(&[])
    }
}

// Whether each need has a name, inside the text of names.
#[tactic(auto, using(crate::proofs::NeedLaws::named_all))]
fn are_named(text: &[u8], needs: &[Need]) -> bool
    ensures { result ≡ are_named text.now needs.now }
{
    needs.iter().all(|need| !need.name(text).is_empty())
}

// The first need that is not met: each record is copied out, and its numbers are handed to the check.
#[tactic(auto, using(crate::proofs::NeedLaws::unmet_steps))]
fn first_unmet(columns: Nodes<'_>, text: &[u8], needs: &[Need]) -> Option<usize>
    ensures { result ≡ first_unmet text.now (columns_in columns.entry) 0 needs.now }
{
    for (i, need) in needs.iter().enumerate() {
        let need = *need;
        let name = need.name(text);
        if !meet(
            columns,
            name,
            need.kind,
            need.number,
            need.scale,
            need.null_allowed,
            need.zoned,
        ) {
            return Some(i);
        }
    }
    None
}

// Whether a tree meets one need, which is given by its name and as plain numbers.
#[tactic(auto, using(crate::proofs::NeedLaws::meets_steps))]
pub fn meets(
    tree: Tree<'_>,
    name: &[u8],
    kind: u32,
    number: u32,
    scale: u32,
    null_allowed: bool,
    zoned: bool,
) -> Result<bool, NotChecked>
    ensures { answer_of number_of result ≡ need_of tree.entry.text.now tree.entry.names.now tree.entry.rows.now kind number scale null_allowed zoned name.now }
{
    let whole = sound_tree(tree)?;
    let columns = columns_of(&whole)?;
    if name.is_empty() {
        return Err(NotChecked::WrongName);
    }
    Ok(meet(columns, name, kind, number, scale, null_allowed, zoned))
}

// Whether a tree fits needs over a text of names: none where it meets each of them, else the first, from 0, that it does not.
#[tactic(auto, using(crate::proofs::NeedLaws::fits_steps))]
pub fn fits(tree: Tree<'_>, text: &[u8], needs: &[Need]) -> Result<Option<usize>, NotChecked>
    ensures { answer_of number_of result ≡ needs_of tree.entry.text.now tree.entry.names.now tree.entry.rows.now text.now needs.now }
{
    let whole = sound_tree(tree)?;
    let columns = columns_of(&whole)?;
    if MAX_NEEDS < needs.len() {
        return Err(NotChecked::TooManyNeeds);
    }
    if !are_named(text, needs) {
        return Err(NotChecked::WrongName);
    }
    Ok(first_unmet(columns, text, needs))
}
