// Refusal 18: whether no name or zone that prints in double quotes holds a character above U+017F.
ghost use Rattle.std.specs.Prelude.{◌≡◌, ◌≤◌, T, true};
ghost use Rattle.tokenizer.specs.Text.{all};
ghost use Rattle.datatype.specs.Tree.{roots, depth};
ghost use Rattle.datatype.specs.Table.{tree_of};
ghost use Rattle.row_table.specs.Nodes.{label_in, children_in, labels_in};
ghost use Rattle.row_table.specs.Internal.Nodes.{rows_in};
ghost use Rattle.display_length.specs.PrintedLength.{names_latin, quoted_latin};
ghost use Rattle.display_length.specs.Internal.Steps.{row_latin, is_clean};

use crate::names::quotes_names;
use crate::strings::is_latin;
use datatype::rows::{MAX_LEVELS, ROW_WORDS};
use row_table::nodes::{Node, Nodes, SoundTree};

// Whether the names of nodes side by side are Latin. Here and below a `for`: by `all` it was not proved, since that answers for
// a run of the iterator, of which the laws have a step at a time.
#[tactic(auto, using(crate::proofs::LatinLaws::names_none))]
fn names_latin(nodes: Nodes<'_>) -> bool
    ensures { result ≡ names_latin (roots (labels_in nodes.entry)) }
{
    for node in nodes {
        if !is_latin(node.name()) {
            return false;
        }
    }
    true
}

// Whether what a row itself prints in double quotes, its zone and its children's names, is Latin.
#[tactic(auto, using(crate::proofs::Rules::row_latin_steps))]
fn row_latin(node: &Node<'_>) -> bool
    ensures { result ≡ row_latin (label_in node.now) (roots (children_in node.now)) }
{
    if !is_latin(node.zone()) {
        return false;
    }
    let children = node.children();
    !quotes_names(children, node.row().kind()) || names_latin(children)
}

// Whether what nodes side by side print in double quotes, with at most so many levels, is Latin.
#[tactic(auto, using(crate::proofs::LatinLaws::quoted_none))]
fn quoted_latin(nodes: Nodes<'_>, level: usize) -> bool
    requires { depth (rows_in nodes) ≤ level }
    ensures { result ≡ quoted_latin (labels_in nodes.entry) }
{
    for node in nodes {
        if !row_latin(&node) || !quoted_latin(node.children(), level - 1) {
            return false;
        }
    }
    true
}

// Whether what a tree prints in double quotes is Latin: where the text is, or is known to be clean, there is nothing to walk.
#[tactic(auto, using(crate::proofs::Rules::tree_latin_steps))]
pub(crate) fn is_latin_tree(whole: &SoundTree<'_>, clean: bool) -> bool
    requires { clean ≡ true → T (all is_clean whole.now.tree.text.now) }
    ensures { result ≡ quoted_latin (tree_of whole.now.tree.text.now whole.now.tree.names.now whole.now.tree.rows.now) }
{
    if clean || is_latin(whole.tree.text) {
        return true;
    }
    let all = Nodes {
        whole,
        start: 0,
        end: whole.tree.rows.len() / ROW_WORDS,
    };
    quoted_latin(all, MAX_LEVELS)
}
