// The walk: a row's type is its own bytes and its children's types. What is known of the level stands in each contract, here
// and in latin.rt: it is a number of the walk and not of the node, and another at each call.
ghost use Rattle.std.specs.Prelude.{◌≡◌, ◌+◌, ◌*◌, ◌≤◌, ◌<◌};
ghost use Rattle.datatype.specs.Table.{rows_at};
ghost use Rattle.display_length.specs.Internal.Nodes.{levels_below, length_in};

use crate::names::quotes_names;
use crate::printed::PrintedNode;
use crate::words::word_length;
use datatype::kind::is_word;

impl PrintedNode<'_> {
    // How many bytes the row's type has, with all that stands below it. No sum overflows: a row has at most 100,000
    // bytes of its own, and as many around its type.
    #[cycle(lengths)]
    #[tactic(auto, using(row_table::proofs::NodeLaws::levels_first))]
    fn nested_length(&self, level: usize) -> usize
        requires { levels_below self.now < level }
        ensures value { result ≡ length_in self.now }
        ensures few { result + 100000 ≤ 200000 * rows_at self.now.of.now.whole.tree.rows.now self.now.at }
    {
        let kind = self.kind();
        let children = self.node().children();
        let quotes = quotes_names(children, kind);
        let mut total = self.own_length();
        for node in children {
            let first = node.at == self.at + 1;
            let child = self.with(node);
            let around = child.around_length(kind, quotes, first);
            let below = child.type_length(level - 1);
            total = total + around + below;
        }
        total
    }

    // The same: a row with nothing below it is not walked, and most of those are their word alone. It is made part of
    // the walk: else 700 fields take a fifth more instructions.
    #[inline(always)]
    #[cycle(lengths)]
    #[tactic(auto, using(crate::proofs::Rules::single_steps))]
    pub(crate) fn type_length(&self, level: usize) -> usize
        requires { levels_below self.now < level }
        ensures value { result ≡ length_in self.now }
        ensures few { result + 100000 ≤ 200000 * rows_at self.now.of.now.whole.tree.rows.now self.now.at }
    {
        if self.node().subtree() != 1 {
            return self.nested_length(level);
        }
        let kind = self.kind();
        if is_word(kind) {
            return word_length(kind);
        }
        self.own_length()
    }
}
