// Writing the image of a sound tree.
ghost use Rattle.std.specs.Prelude.{◌≡◌, ◌+◌, ◌-◌, ◌≤◌, ◌<◌, ◌^◌, length};
ghost use Rattle.std.proofs.Common.{rules};
ghost use Rattle.std.proofs.lemmas.List.Edits.{sets};
ghost use Rattle.datatype.specs.Label.{label_said};
ghost use Rattle.datatype.specs.Tree.{depth};
ghost use Rattle.datatype.specs.Table.{tree_of};
ghost use Rattle.row_table.specs.Nodes.{labels_in};
ghost use Rattle.row_table.specs.Internal.Nodes.{rows_in};
ghost use Rattle.writer.specs.Written.{written};
ghost use Rattle.archive.specs.Archive.{with_length, image_of, not_written_number};
ghost use Rattle.archive.specs.Internal.Writes.{Small, Writables, most_bytes, own_bytes, patched};

use datatype::Label;
use datatype::rows::{MAX_LEVELS, ROW_WORDS};
use row_table::nodes::{Nodes, SoundTree};
use thiserror::Error;
use tokenizer::Numbered;
use writer::{Writer, put_bytes};

/// Why an image was not written.
#[derive(Clone, Copy, Debug, Drop, PartialEq, Eq, Error)]
pub enum NotWritten {
    #[error("text and rows are no sound tree")]
    NotSound = 17,
    #[error("there is no room for what is to be written")]
    NoRoom = 28,
}

impl Numbered for NotWritten {
    ghost numbered = { not_written_number };

    ghost listed = { Prim.search rules };

    fn number(self) -> u32 {
        self as u32
    }
}

// A name or a zone behind its length.
#[tactic(auto, using(crate::proofs::Writing::written_two))]
fn put_string(writer: &mut Writer<'_>, s: &[u8])
    requires { length s.now < 2 ^ 16 }
    ensures { writer.new ≡ written writer.old (with_length s.now) }
{
    writer.put(&(s.len() as u16).to_le_bytes());
    writer.put(s);
}

// A record without its children, four zeros in the place of its length.
#[tactic(auto, unfolding(crate::specs::Internal::Writes::own_bytes))]
fn put_own(writer: &mut Writer<'_>, label: Label<'_>)
    requires { Small (label_said label) }
    ensures { writer.new ≡ written writer.old (own_bytes (label_said label.entry)) }
{
    writer.put(&[0, 0, 0, 0]);
    writer.put(&(label.kind as u16).to_le_bytes());
    writer.put(&[label.role as u8, label.union_id as u8]);
    writer.put(&label.number.to_le_bytes());
    writer.put_byte(label.scale as u8);
    put_string(writer, label.name);
    put_string(writer, label.zone);
}

// The length of a record that was written from a place on.
#[tactic(auto, unfolding(crate::specs::Internal::Writes::patched))]
fn put_record_length(writer: &mut Writer<'_>, start: usize)
    requires before { start ≤ writer.old.at }
    requires few { writer.old.at - start < most_bytes }
    ensures { writer.new ≡ patched writer.old start }
{
    let length = (writer.at - start) as u32;
    put_bytes(writer.out, start, &length.to_le_bytes());
}

// The records of nodes side by side, each with its children's, of so many levels.
fn put_records(writer: &mut Writer<'_>, nodes: Nodes<'_>, level: usize)
    requires flat { depth (rows_in nodes) ≤ level }
    requires writable { Writables (labels_in nodes) }
    requires few { writer.old.at + length (image_of (labels_in nodes)) < most_bytes }
    ensures { writer.new ≡ written writer.old (image_of (labels_in nodes.entry)) }
{
    for node in nodes {
        let start = writer.at;
        let whole = node.whole;
        put_own(writer, node.row().label(&whole.tree));
        put_records(writer, node.children(), level - 1);
        put_record_length(writer, start);
    }
}

// Writes the image of a sound tree: how many bytes it has, whatever room there is.
#[tactic(auto, using(row_table::proofs::NodeLaws::all_nest, row_table::proofs::NodeLaws::all_levels))]
pub(crate) fn put_image(tree: &SoundTree<'_>, out: &mut [u8]) -> usize
    ensures answer { result ≡ length (image_of (tree_of tree.now.tree.text.now tree.now.tree.names.now tree.now.tree.rows.now)) }
    ensures bytes { out.new ≡ sets out.old 0 (image_of (tree_of tree.now.tree.text.now tree.now.tree.names.now tree.now.tree.rows.now)) }
{
    let mut writer = Writer { at: 0, out };
    let root = Nodes {
        whole: tree,
        start: 0,
        end: tree.tree.rows.len() / ROW_WORDS,
    };
    put_records(&mut writer, root, MAX_LEVELS);
    writer.at
}
