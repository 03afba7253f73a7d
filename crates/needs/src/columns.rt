// The columns of a tree: the fields of its root, of which one is looked for by its name.
ghost use Rattle.std.specs.Prelude.{◌≡◌, MatchResult};
ghost use Rattle.tokenizer.specs.Answer.{done, refuse};
ghost use Rattle.row_table.specs.Nodes.{label_in};
ghost use Rattle.needs.specs.Answer.{number_of};
ghost use Rattle.needs.specs.Needs.{role_allowed, zone_allowed, fields_named, only, is_needed, need_met, columns_of};
ghost use Rattle.needs.specs.Internal.Columns.{columns_in, said};

use crate::NotChecked;
use datatype::rows::NON_NULL;
use datatype::{Tree, equal_bytes};
use row_table::nodes::{Node, Nodes, SoundTree};

// A tree, if it is sound.
#[tactic(auto, using(crate::proofs::ColumnLaws::columns_unsound))]
pub(crate) fn sound_tree(tree: Tree<'_>) -> Result<SoundTree<'_>, NotChecked>
    ensures { MatchResult result
        (λ whole. whole.tree ≡ tree.entry)
        (λ e. columns_of tree.entry.text.now tree.entry.names.now tree.entry.rows.now ≡ refuse (number_of e)) }
{
    SoundTree::of(tree).ok_or(NotChecked::NotSound)
}

// The columns of a sound tree, if its root is a Struct.
#[tactic(auto, using(crate::proofs::ColumnLaws::columns_steps))]
pub(crate) fn columns_of<'a>(whole: &'a SoundTree<'a>) -> Result<Nodes<'a>, NotChecked>
    ensures { MatchResult result
        (λ columns. columns_of whole.now.tree.text.now whole.now.tree.names.now whole.now.tree.rows.now ≡ done (columns_in columns))
        (λ e. columns_of whole.now.tree.text.now whole.now.tree.names.now whole.now.tree.rows.now ≡ refuse (number_of e)) }
{
    whole.fields().ok_or(NotChecked::NotStruct)
}

// Whether a role is non-null, unless null is allowed.
#[tactic(auto, unfolding(crate::specs::Needs::role_allowed))]
fn allows_role(null_allowed: bool, role: u32) -> bool
    ensures { result ≡ role_allowed null_allowed role }
{
    null_allowed || role == NON_NULL
}

// Whether a zone is there exactly when it is asked for.
#[tactic(auto, using(crate::proofs::NeedLaws::empty_is), unfolding(crate::specs::Needs::zone_allowed))]
fn allows_zone(zoned: bool, zone: &[u8]) -> bool
    ensures { result ≡ zone_allowed zoned zone.now }
{
    zone.is_empty() != zoned
}

// The one column of a name: none where no column has it, and none where two have.
#[tactic(auto, using(crate::proofs::ColumnLaws::search_steps))]
fn only_named<'a>(columns: Nodes<'a>, name: &[u8]) -> Option<Node<'a>>
    ensures { said result ≡ only (fields_named name.now (columns_in columns.entry)) }
{
    let mut found = None;
    for column in columns {
        if !equal_bytes(column.name(), name) {
            continue;
        }
        if found.is_some() {
            return None;
        }
        found = Some(column);
    }
    found
}

// Whether a column has a kind and two numbers, is non-null unless null is allowed, and has a zone exactly where one must
// stand.
#[tactic(auto, using(crate::proofs::NeedLaws::needed_is))]
fn is_needed(
    column: &Node<'_>,
    kind: u32,
    number: u32,
    scale: u32,
    null_allowed: bool,
    zoned: bool,
) -> bool
    ensures { result ≡ is_needed kind number scale null_allowed zoned (label_in column.now) }
{
    let row = column.row();
    row.kind() == kind
        && row.number() == number
        && row.scale() == scale
        && allows_role(null_allowed, row.role())
        && allows_zone(zoned, column.zone())
}

// Whether the one column of a name is as needed.
#[tactic(auto, using(crate::proofs::NeedLaws::met_steps))]
pub(crate) fn meet(
    columns: Nodes<'_>,
    name: &[u8],
    kind: u32,
    number: u32,
    scale: u32,
    null_allowed: bool,
    zoned: bool,
) -> bool
    ensures { result ≡ need_met kind number scale null_allowed zoned name.now (columns_in columns.entry) }
{
    let Some(column) = only_named(columns, name) else {
        return false;
    };
    is_needed(&column, kind, number, scale, null_allowed, zoned)
}
