// Packing rows of a tree, of which no words but those of its place in the text change.
ghost use Rattle.std.specs.Prelude.{◌≡◌, ◌-◌, ◌*◌, ◌≤◌, length};
ghost use Rattle.datatype.specs.Table.{row_words};
ghost use Rattle.column_out.specs.Internal.Stretch.{put_stretch};

use datatype::rows::{ROW_WORDS, ROWS};
use datatype::{Row, Tree};
use packing::Packer;

// Packs the rows from row `from` to row `end`, each over as many rows as before.
#[tactic(auto, using(crate::proofs::FieldLaws::putting))]
pub(crate) fn put_rows(packer: &mut Packer<'_>, tree: &Tree<'_>, from: usize, end: usize)
    requires there { row_words * end ≤ length tree.now.rows.now }
    requires ordered { from ≤ end }
    ensures { packer.new ≡ put_stretch tree.now.text.now tree.now.names.now tree.now.rows.now packer.old from (end - from) }
{
    for i in from..end {
        let row = Row {
            rows: tree.rows,
            at: i,
        };
        packer.put_row(row.label(tree), tree.rows[ROW_WORDS * i + ROWS]);
    }
}
