// Types in the archive record: a tree becomes an image, the bytes of one record with its children's
// in it, and an image becomes rows over a packed text.

#![tactic(auto)]

ghost use Rattle.std.specs.Prelude.{◌≡◌, ◌*◌, length, take, IfOk};
ghost use Rattle.std.proofs.Common.{rules};
ghost use Rattle.tokenizer.specs.Answer.{answer_of};
ghost use Rattle.datatype.specs.Table.{row_words, tree_of};
ghost use Rattle.archive.specs.Archive.{not_written_number, archive_answer, archive_bytes, not_read_number, unarchived, unarchive_answer, unarchive_rows, unarchive_text};
ghost use Rattle.archive.specs.Laws.{HasLength, ReadsBack, IsImage, IsRead, ReadsWithMore};
ghost use Rattle.archive.specs.Internal.Fills.{Packs};

mod fill;
mod record;
mod scan;
mod write;

use crate::fill::pack;
pub use crate::write::NotWritten;
use crate::write::put_image;
use datatype::rows::ROW_WORDS;
use datatype::{Field, Tree};
use packing::Packed;
use row_table::is_sound;
use row_table::nodes::SoundTree;
use thiserror::Error;
use tokenizer::Numbered;

/// Why an image was not read.
#[derive(Clone, Copy, Debug, Drop, PartialEq, Eq, Error)]
pub enum NotRead {
    #[error("text and rows are no sound tree")]
    NotSound = 17,
    #[error("there is no room for what is to be written")]
    NoRoom = 28,
    /// A length is not whole, too short, or runs past what it stands in; or bytes stand behind the image.
    #[error("a length does not fit what is there")]
    WrongLength = 30,
    #[error("there is no such kind")]
    UnknownKind = 31,
}

impl Numbered for NotRead {
    ghost numbered = { not_read_number };

    ghost listed = { Prim.search rules };

    fn number(self) -> u32 {
        self as u32
    }
}

/// Writes the image of a sound tree at the start of the bytes lent: how many bytes it has. A
/// refusal changes nothing.
pub fn write_archive(tree: Tree<'_>, out: &mut [u8]) -> Result<usize, NotWritten>
    ensures answer { answer_of not_written_number result ≡ archive_answer tree.entry.text.now tree.entry.names.now tree.entry.rows.now out.old }
    ensures bytes { out.new ≡ archive_bytes tree.entry.text.now tree.entry.names.now tree.entry.rows.now out.old }
    ensures size { IfOk result (λ n. HasLength (tree_of tree.entry.text.now tree.entry.names.now tree.entry.rows.now) n) }
    ensures read_back { IfOk result (λ n. ReadsBack (tree_of tree.entry.text.now tree.entry.names.now tree.entry.rows.now) (take n out.new)) }
    ensures one_image { IfOk result (λ n. IsImage tree.entry.text.now tree.entry.names.now tree.entry.rows.now (take n out.new)) }
{
    let Some(sound) = SoundTree::of(tree) else {
        return Err(NotWritten::NotSound);
    };
    if out.len() < put_image(&sound, &mut []) {
        return Err(NotWritten::NoRoom);
    }
    Ok(put_image(&sound, out))
}

// Packs the tree of an image into lent rows and a lent text, if it is sound; they are left open on
// a refusal.
fn pack_sound(image: &[u8], rows: &mut [u32], text: &mut [u8]) -> Result<Packed, NotRead>
    ensures { Packs (unarchived image.now (length rows.old) (length text.old)) rows.old text.old result rows.new text.new }
{
    let packed = pack(image, rows, text)?;
    let tree = Tree {
        text: &text[..packed.bytes],
        names: &Field::NAME_LIST,
        rows: &rows[..ROW_WORDS * packed.rows],
    };
    if !is_sound(tree) {
        return Err(NotRead::NotSound);
    }
    Ok(packed)
}

/// Reads an image into rows over a packed text: how many rows and bytes of text it fills. A refusal
/// leaves both all zeros.
pub fn read_archive(image: &[u8], rows: &mut [u32], text: &mut [u8]) -> Result<Packed, NotRead>
    ensures answer { answer_of not_read_number result ≡ unarchive_answer image.now rows.old text.old }
    ensures contents { rows.new ≡ unarchive_rows image.now rows.old text.old }
    ensures bytes { text.new ≡ unarchive_text image.now rows.old text.old }
    ensures read { IfOk result (λ size. IsRead image.now (take size.bytes text.new) (take (row_words * size.rows) rows.new)) }
    ensures more_room { IfOk result (λ size. ReadsWithMore image.now (length rows.old) (length text.old)) }
{
    let read = pack_sound(image, rows, text);
    if read.is_err() {
        rows.fill(0);
        text.fill(0);
    }
    read
}
