// A row's own bytes, but for what stands around its children's types.
ghost use Rattle.std.specs.Prelude.{◌≡◌, ◌≤◌};
ghost use Rattle.datatype.specs.Kind.{shape_of};
ghost use Rattle.display_length.specs.Internal.Steps.{behind_length, row_length};
ghost use Rattle.display_length.specs.Internal.Nodes.{label_in};

use crate::printed::PrintedNode;
use crate::words::{interval_word, mode_word, scale_length, sorted_word, unit_word, word_length};
use datatype::kind;
use writer::digits_length;

impl PrintedNode<'_> {
    // What stands behind a kind's word: the marks that every type of the kind has, and what its numbers and its zone say.
    #[tactic(auto, using(crate::proofs::Rules::behind_steps), unfolding(crate::specs::Internal::Steps::behind_length))]
    fn behind_length(&self, kind: u32) -> usize
        ensures value { result ≡ behind_length self.now.of.now.spelling (shape_of kind) (label_in self.now) }
        ensures few { result ≤ 98400 }
    {
        let row = self.node().row();
        let number = row.number();
        let spelling = self.of.spelling;
        match kind {
            kind::TIMESTAMP => b"()".len()
                + unit_word(spelling, number).len()
                + self.zone_part().zone_length(),
            kind::TIME32 | kind::TIME64 | kind::DURATION => b"()".len()
                + unit_word(spelling, number).len(),
            kind::INTERVAL => b"()".len() + interval_word(number).len(),
            kind::FIXED_SIZE_BINARY => b"()".len() + digits_length(number),
            kind::FIXED_SIZE_LIST => b"( x )".len() + digits_length(number),
            kind::UNION => b"()".len() + mode_word(number).len(),
            kind::DECIMAL32 | kind::DECIMAL64 | kind::DECIMAL128 | kind::DECIMAL256 => {
                b"(, )".len() + digits_length(number) + scale_length(row.scale())
            }
            kind::MAP => b"(, )".len() + sorted_word(number).len(),
            kind::LIST
            | kind::LIST_VIEW
            | kind::LARGE_LIST
            | kind::LARGE_LIST_VIEW
            | kind::STRUCT
            | kind::DICTIONARY
            | kind::RUN_END_ENCODED => b"()".len(),
            _ => 0,
        }
    }

    // The word of the row's kind and what stands behind it.
    #[tactic(auto, using(crate::proofs::WordLaws::word_few), unfolding(crate::specs::Internal::Steps::row_length))]
    pub(crate) fn own_length(&self) -> usize
        ensures value { result ≡ row_length self.now.of.now.spelling (label_in self.now) }
        ensures few { result ≤ 100000 }
    {
        let kind = self.kind();
        word_length(kind) + self.behind_length(kind)
    }
}
