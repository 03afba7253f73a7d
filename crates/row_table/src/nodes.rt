// A sound tree's rows: each with those below it is a node, and nodes side by side are walked one by one.
ghost use Rattle.std.specs.Prelude.{◌≡◌, ◌+◌, ◌-◌, ◌≤◌, T, true, false, MatchOption};
ghost use Rattle.tokenizer.specs.Answer.{refuse};
ghost use Rattle.datatype.specs.Label.{label_said};
ghost use Rattle.datatype.specs.Tree.{depth, name_of, zone_of};
ghost use Rattle.datatype.specs.Table.{rows_at, tree_of, word_at};
ghost use Rattle.unchecked_rows.specs.Internal.Run.{Nests};
ghost use Rattle.row_table.specs.Sound.{is_sound};

use crate::sound::is_sound;
use datatype::kind::STRUCT;
use datatype::{Label, Row, Tree};
use unchecked_rows::levels_of;

/// A tree that is sound: `of` tests it, and who knows it otherwise, as a reader of what it has just read, makes one by a proof.
#[derive(Clone, Copy)]
pub struct SoundTree<'a> {
    pub tree: Tree<'a>,
    ghost sound: { T (is_sound tree.text.now tree.names.now tree.rows.now) },
}

/// A row of a sound tree, with the rows below it.
#[derive(Clone, Copy)]
pub struct Node<'a> {
    pub whole: &'a SoundTree<'a>,
    pub at: usize,
    ghost some_rows: { 1 ≤ rows_at whole.now.tree.rows.now at },
    ghost nests: { Nests whole.now.tree.rows.now (at + 1) (at + rows_at whole.now.tree.rows.now at - (at + 1)) },
}

/// The nodes side by side in the rows from start to end.
#[derive(Clone, Copy)]
pub struct Nodes<'a> {
    pub whole: &'a SoundTree<'a>,
    pub start: usize,
    pub end: usize,
    ghost ordered: { start ≤ end },
    ghost nests: { Nests whole.now.tree.rows.now start (end - start) },
}

impl<'a> SoundTree<'a> {
    ghost use Rattle.row_table.specs.Sound.{struct_fields};
    ghost use Rattle.row_table.specs.Fields.{AreFields};

    /// A tree, if it is sound.
    pub fn of(tree: Tree<'a>) -> Option<SoundTree<'a>>
        ensures { MatchOption result
            (is_sound tree.entry.text.now tree.entry.names.now tree.entry.rows.now ≡ false)
            (λ whole. (is_sound tree.entry.text.now tree.entry.names.now tree.entry.rows.now ≡ true) × (whole.tree ≡ tree.entry)) }
    {
        if !is_sound(tree) {
            return None;
        }
        Some(SoundTree { tree })
    }

    /// The row that all others stand below.
    #[tactic(auto, using(crate::proofs::NodeLaws::root_steps))]
    pub fn root(&self) -> Node<'_>
        ensures whole { result.whole.now ≡ self.now }
        ensures at { result.at ≡ 0 }
    {
        Node { whole: self, at: 0 }
    }

    /// The tree's depth.
    #[tactic(auto, using(crate::proofs::DepthLaws::sound_levels))]
    pub fn levels(&self) -> usize
        ensures { result ≡ depth (tree_of self.now.tree.text.now self.now.tree.names.now self.now.tree.rows.now) }
    {
        levels_of(self.tree.rows)
    }

    /// The fields of the root, if it is a Struct.
    pub fn fields(&self) -> Option<Nodes<'_>>
        ensures { MatchOption result
            (struct_fields self.now.tree.text.now self.now.tree.names.now self.now.tree.rows.now ≡ refuse 25)
            (λ fields. AreFields self.now fields) }
    {
        let root = self.root();
        if root.row().kind() != STRUCT {
            return None;
        }
        Some(root.children())
    }
}

impl<'a> Node<'a> {
    ghost use Rattle.row_table.specs.Nodes.{label_in};

    /// The row itself, by which its words are read.
    pub fn row(&self) -> Row<&'a [u32]>
        ensures rows { result.rows.now ≡ self.now.whole.now.tree.rows.now }
        ensures at { result.at ≡ self.now.at }
    {
        let whole = self.whole;
        Row {
            rows: whole.tree.rows,
            at: self.at,
        }
    }

    /// What the row says.
    pub fn label(&self) -> Label<'a>
        ensures { label_said result ≡ label_in self.now }
    {
        let whole = self.whole;
        self.row().label(&whole.tree)
    }

    /// How many rows it is, with those below it.
    pub fn subtree(&self) -> usize
        ensures { result ≡ rows_at self.now.whole.now.tree.rows.now self.now.at }
    {
        self.row().subtree()
    }

    /// The nodes right below it.
    #[tactic(auto, using(crate::proofs::NodeLaws::few_rows))]
    pub fn children(&self) -> Nodes<'a>
        ensures whole { result.whole ≡ self.now.whole }
        ensures start { result.start ≡ self.now.at + 1 }
        ensures end { result.end ≡ self.now.at + rows_at self.now.whole.now.tree.rows.now self.now.at }
    {
        Nodes {
            whole: self.whole,
            start: self.at + 1,
            end: self.at + self.subtree(),
        }
    }

    /// The row's name, a part of the text or of the name list: empty where it has none.
    pub fn name(&self) -> &'a [u8]
        ensures { result.now ≡ name_of self.now.whole.now.tree.text.now self.now.whole.now.tree.names.now (word_at self.now.whole.now.tree.rows.now self.now.at 6) (word_at self.now.whole.now.tree.rows.now self.now.at 7) (word_at self.now.whole.now.tree.rows.now self.now.at 8) }
    {
        let whole = self.whole;
        self.row().name(&whole.tree)
    }

    /// The row's zone, a part of the text: empty where it has none.
    pub fn zone(&self) -> &'a [u8]
        ensures { result.now ≡ zone_of self.now.whole.now.tree.text.now (word_at self.now.whole.now.tree.rows.now self.now.at 9) (word_at self.now.whole.now.tree.rows.now self.now.at 10) }
    {
        let whole = self.whole;
        self.row().zone(whole.tree.text)
    }
}

impl<'a> Iterator for Nodes<'a> {
    ghost use Rattle.std.specs.Iterator.{at_most};
    ghost use Rattle.row_table.specs.Nodes.{GivesNode};

    type Item = Node<'a>;

    ghost next_gives = { GivesNode };

    ghost remaining = { λ nodes. at_most (nodes.end - nodes.start) };

    // The next node stands behind the rows below this one.
    #[tactic(auto, using(crate::proofs::NodeLaws::next_steps))]
    fn next(&mut self) -> Option<Node<'a>> {
        if self.start == self.end {
            return None;
        }
        let node = Node {
            whole: self.whole,
            at: self.start,
        };
        self.start += node.subtree();
        Some(node)
    }
}
