// Taking a column out of a Struct: the field goes with all that stands below it, and what stays is packed into fresh lent
// rows and a fresh lent text.

#![tactic(auto)]

ghost use Rattle.std.specs.Prelude.{◌≡◌};
ghost use Rattle.std.proofs.Common.{rules};
ghost use Rattle.tokenizer.specs.Answer.{answer_of};
ghost use Rattle.column_out.specs.ColumnOut.{number_of, column_out_answer, column_out_rows, column_out_bytes};

mod fields;
mod pack;

use crate::fields::what_stays;
use crate::pack::put_rows;
use datatype::rows::ROW_WORDS;
use datatype::{Row, Tree};
use packing::{Packed, Packer};
use thiserror::Error;
use tokenizer::Numbered;

/// Why a column was not taken out.
#[derive(Clone, Copy, Debug, Drop, PartialEq, Eq, Error)]
pub enum NotTaken {
    #[error("text and rows are no sound tree")]
    NotSound = 17,
    #[error("the root is not a Struct")]
    NotStruct = 25,
    #[error("there is no room for what is to be written")]
    NoRoom = 28,
    #[error("there is no such field")]
    NoSuchField = 29,
}

impl Numbered for NotTaken {
    ghost numbered = { number_of };

    ghost listed = { Prim.search rules };

    fn number(self) -> u32 {
        self as u32
    }
}

/// Takes a field, counted from 0, out of a sound tree whose root is a Struct: the rows of what stays stand at the start of
/// the rows lent, over the packed text at the start of the text lent. A refusal changes neither.
pub fn take_column_out(
    tree: Tree<'_>,
    field: usize,
    rows: &mut [u32],
    text: &mut [u8],
) -> Result<Packed, NotTaken>
    ensures answer { answer_of number_of result ≡ column_out_answer tree.entry.text.now tree.entry.names.now tree.entry.rows.now field rows.old text.old }
    ensures contents { rows.new ≡ column_out_rows tree.entry.text.now tree.entry.names.now tree.entry.rows.now field rows.old text.old }
    ensures bytes { text.new ≡ column_out_bytes tree.entry.text.now tree.entry.names.now tree.entry.rows.now field rows.old text.old }
{
    let kept = what_stays(tree, field)?;
    if !kept.packed.fits(rows.len(), text.len()) {
        return Err(NotTaken::NoRoom);
    }
    let mut packer = Packer {
        rows,
        text,
        packed: Packed { rows: 0, bytes: 0 },
    };
    let root = Row {
        rows: tree.rows,
        at: 0,
    };
    packer.put_row(root.label(&tree), kept.packed.rows as u32);
    put_rows(&mut packer, &tree, 1, kept.first);
    put_rows(&mut packer, &tree, kept.end, tree.rows.len() / ROW_WORDS);
    packer.set_parents();
    Ok(packer.packed)
}
