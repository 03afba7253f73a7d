// What stays of a tree when a field of its root is taken out.
ghost use Rattle.std.specs.Prelude.{◌≡◌, ◌-◌, ◌*◌, ◌≤◌, Some, None, length, MatchOption, MatchResult};
ghost use Rattle.tokenizer.specs.Answer.{refuse};
ghost use Rattle.datatype.specs.Limits.{max_text, max_rows};
ghost use Rattle.datatype.specs.Table.{row_words};
ghost use Rattle.column_out.specs.ColumnOut.{tree_left, number_of};
ghost use Rattle.column_out.specs.Internal.Stretch.{nth_row, stretch_length};
ghost use Rattle.column_out.specs.Internal.Steps.{Stays};

use crate::NotTaken;
use datatype::rows::ROW_WORDS;
use datatype::{Row, Tree};
use packing::Packed;
use row_table::nodes::{Node, Nodes, SoundTree};

// The rows from first to end go; what stays comes to so many rows and bytes.
#[derive(Clone, Copy)]
pub(crate) struct Kept {
    pub(crate) first: usize,
    pub(crate) end: usize,
    pub(crate) packed: Packed,
}

// The n-th of the fields of a root: none where it has no such field.
fn nth<'a>(fields: Nodes<'a>, n: usize) -> Option<Node<'a>>
    ensures { MatchOption result
        (nth_row fields.entry.whole.now.tree.rows.now fields.entry.start fields.entry.end n ≡ None)
        (λ field. (field.whole ≡ fields.entry.whole) × (nth_row fields.entry.whole.now.tree.rows.now fields.entry.start fields.entry.end n ≡ Some field.at)) }
{
    let mut left = n;
    for field in fields {
        if left == 0 {
            return Some(field);
        }
        left -= 1;
    }
    None
}

// How many bytes the rows from row `from` to row `end` pack.
#[tactic(auto, using(crate::proofs::Rows::counting))]
fn packed_length(tree: &Tree<'_>, from: usize, end: usize) -> usize
    requires there { row_words * end ≤ length tree.now.rows.now }
    requires ordered { from ≤ end }
    requires few { end ≤ max_rows }
    requires short { length tree.now.text.now ≤ max_text }
    requires listed { length tree.now.names.now ≤ max_text }
    ensures are { result ≡ stretch_length tree.now.text.now tree.now.names.now tree.now.rows.now from (end - from) }
    ensures few { result ≤ 2 * max_text * (end - from) }
{
    let mut total = 0;
    for i in from..end {
        let row = Row {
            rows: tree.rows,
            at: i,
        };
        total += row.name(tree).len() + row.zone(tree.text).len();
    }
    total
}

// What stays without a field: 17, 25 and 29 where there is no such tree.
#[tactic(auto, using(crate::proofs::TakeLaws::staying))]
pub(crate) fn what_stays(tree: Tree<'_>, field: usize) -> Result<Kept, NotTaken>
    ensures { MatchResult result
        (λ kept. Stays tree.entry.text.now tree.entry.names.now tree.entry.rows.now field kept)
        (λ e. refuse (number_of e) ≡ tree_left tree.entry.text.now tree.entry.names.now tree.entry.rows.now field) }
{
    let Some(whole) = SoundTree::of(tree) else {
        return Err(NotTaken::NotSound);
    };
    let Some(fields) = whole.fields() else {
        return Err(NotTaken::NotStruct);
    };
    let Some(gone) = nth(fields, field) else {
        return Err(NotTaken::NoSuchField);
    };
    let tree = &whole.tree;
    let all = tree.rows.len() / ROW_WORDS;
    let first = gone.at;
    let end = first + gone.subtree();
    let before = packed_length(tree, 0, first);
    let after = packed_length(tree, end, all);
    let packed = Packed {
        rows: all - (end - first),
        bytes: before + after,
    };
    Ok(Kept { first, end, packed })
}
