// A row's own bytes around its children's types: names, nullability and marks.
ghost use Rattle.std.specs.Prelude.{◌≡◌, ◌≤◌};
ghost use Rattle.datatype.specs.Kind.{shape_of};
ghost use Rattle.display_length.specs.Internal.Steps.{comma_length, nullity_length, field_length, around_length};
ghost use Rattle.display_length.specs.Internal.Nodes.{label_in};

use crate::printed::PrintedNode;
use datatype::kind;
use datatype::rows::NON_NULL;
use writer::digits_length;

// A comma and a space before each child but the first.
fn comma_length(first: bool) -> usize
    ensures { result ≡ comma_length first }
{
    if first { 0 } else { b", ".len() }
}

// `non-null ` and a space; nullable is the default.
#[tactic(auto, unfolding(crate::specs::Internal::Steps::nullity_length))]
fn nullability_length(role: u32) -> usize
    ensures { result ≡ nullity_length role }
{
    if role == NON_NULL {
        b"non-null ".len()
    } else {
        0
    }
}

impl PrintedNode<'_> {
    // A field without its type: its name, where names print in double quotes, and its nullability.
    #[tactic(auto, using(crate::proofs::Rules::field_steps), unfolding(crate::specs::Internal::Steps::field_length))]
    fn field_length(&self, quotes: bool) -> usize
        ensures value { result ≡ field_length quotes (label_in self.now) }
        ensures few { result ≤ 98400 }
    {
        let nullability = nullability_length(self.node().row().role());
        if !quotes {
            return nullability;
        }
        self.name_part().quoted_length() + b": ".len() + nullability
    }

    // What stands around its type, by its parent's kind.
    #[tactic(auto, using(crate::proofs::Rules::around_steps), unfolding(crate::specs::Internal::Steps::around_length))]
    pub(crate) fn around_length(&self, kind: u32, quotes: bool, first: bool) -> usize
        ensures value { result ≡ around_length (shape_of kind) quotes first (label_in self.now) }
        ensures few { result ≤ 100000 }
    {
        match kind {
            kind::STRUCT | kind::RUN_END_ENCODED => comma_length(first) + self.field_length(quotes),
            kind::UNION => {
                b", : ()".len()
                    + digits_length(self.node().row().union_id())
                    + self.field_length(quotes)
            }
            kind::MAP => self.field_length(quotes),
            kind::DICTIONARY => comma_length(first),
            kind::LIST
            | kind::LIST_VIEW
            | kind::FIXED_SIZE_LIST
            | kind::LARGE_LIST
            | kind::LARGE_LIST_VIEW => {
                nullability_length(self.node().row().role()) + self.name_part().list_name_length()
            }
            _ => 0,
        }
    }
}
