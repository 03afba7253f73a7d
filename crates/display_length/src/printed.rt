// A sound tree as it is printed, and its nodes.
ghost use Rattle.std.specs.Prelude.{◌≡◌, ◌+◌, ◌-◌, ◌≤◌, T, true};
ghost use Rattle.tokenizer.specs.Text.{all};
ghost use Rattle.datatype.specs.Table.{rows_at};
ghost use Rattle.unchecked_rows.specs.Internal.Run.{Nests};
ghost use Rattle.display_length.specs.Internal.Steps.{is_clean};

use crate::strings::Part;
use crate::words::Spelling;
use row_table::nodes::{Node, SoundTree};

/// A sound tree, the spelling in which it is printed, and whether its text is known to be clean. No `Option` of the text: its
/// bytes count either way.
#[derive(Clone, Copy)]
pub struct Printed<'a> {
    pub whole: SoundTree<'a>,
    pub spelling: Spelling,
    pub clean: bool,
    ghost clean_text: { clean ≡ true → T (all is_clean whole.tree.text.now) },
}

/// A node of a tree that is printed: by its place, as `Node` is, so that the walks hand on two words.
#[derive(Clone, Copy)]
pub struct PrintedNode<'a> {
    pub of: &'a Printed<'a>,
    pub at: usize,
    ghost some_rows: { 1 ≤ rows_at of.now.whole.tree.rows.now at },
    ghost nests: { Nests of.now.whole.tree.rows.now (at + 1) (at + rows_at of.now.whole.tree.rows.now at - (at + 1)) },
}

impl Printed<'_> {
    /// The root.
    #[tactic(auto, using(row_table::proofs::NodeLaws::root_steps))]
    pub fn root(&self) -> PrintedNode<'_>
        ensures of { result.of.now ≡ self.now }
        ensures at { result.at ≡ 0 }
    {
        PrintedNode { of: self, at: 0 }
    }
}

impl<'a> PrintedNode<'a> {
    ghost use Rattle.display_length.specs.Internal.Nodes.{label_in};

    /// The node of the sound tree.
    pub fn node(&self) -> Node<'a>
        ensures whole { result.whole.now ≡ self.now.of.now.whole }
        ensures at { result.at ≡ self.now.at }
    {
        let of = self.of;
        Node {
            whole: &of.whole,
            at: self.at,
        }
    }

    // Another node of the same tree.
    #[tactic(auto, using(crate::proofs::PrintedNodes::same_steps))]
    pub(crate) fn with(&self, node: Node<'a>) -> PrintedNode<'a>
        requires { node.whole.now ≡ self.now.of.now.whole }
        ensures of { result.of ≡ self.now.of }
        ensures at { result.at ≡ node.entry.at }
    {
        PrintedNode {
            of: self.of,
            at: node.at,
        }
    }

    #[tactic(auto, using(row_table::proofs::NodeLaws::kind_said))]
    pub(crate) fn kind(&self) -> u32
        ensures { result ≡ (label_in self.now).kind }
    {
        self.node().row().kind()
    }

    // The row's name and zone, with whether they are known to be clean.
    #[tactic(auto, using(crate::proofs::Rules::name_steps))]
    pub(crate) fn name_part(&self) -> Part<'a>
        ensures { result.bytes.now ≡ (label_in self.now).name }
    {
        let of = self.of;
        Part {
            bytes: self.node().name(),
            clean: of.clean,
        }
    }

    #[tactic(auto, using(crate::proofs::Rules::zone_part_steps))]
    pub(crate) fn zone_part(&self) -> Part<'a>
        ensures { result.bytes.now ≡ (label_in self.now).zone }
    {
        let of = self.of;
        Part {
            bytes: self.node().zone(),
            clean: of.clean,
        }
    }
}
