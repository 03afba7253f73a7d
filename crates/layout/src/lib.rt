// The layout verdict: a dictionary key is any of the eight integer types, run ends are Int16, Int32 or Int64.

#![tactic(auto)]

ghost use Rattle.std.specs.Prelude.{◌≡◌};
ghost use Rattle.tokenizer.specs.Answer.{number_of, answer_of};
ghost use Rattle.datatype.specs.Kind.{shape_of};
ghost use Rattle.unchecked_rows.specs.Equal.{whole_rows};
ghost use Rattle.layout.specs.Layout.{anything, kind_allowed, asked_of_first, verdict_of};
ghost use Rattle.layout.specs.Internal.Scan.{asked_of, scan};

use datatype::Tree;
use datatype::kind::{DICTIONARY, INT8, INT16, INT64, RUN_END_ENCODED, UINT64};
use datatype::rows::{KIND, ROW_WORDS};
use row_table::is_sound;
use tokenizer::Refusal;

// What the layout asks of a row's kind.
#[derive(Clone, Copy)]
enum Asked {
    Anything,
    Key,
    RunEnd,
}

impl Asked {
    // Whether a row that is asked this may have a kind.
    #[tactic(auto, unfolding(crate::specs::Layout::kind_allowed))]
    fn allows(self, kind: u32) -> bool
        ensures { result ≡ kind_allowed (asked_of self) kind }
    {
        match self {
            Asked::Anything => true,
            Asked::Key => matches!(kind, INT8..=UINT64),
            Asked::RunEnd => matches!(kind, INT16..=INT64),
        }
    }

    // What is asked of the first child of a row of a kind.
    #[tactic(auto, using(datatype::proofs::KindShapes::by_shape), unfolding(crate::specs::Layout::asked_of_first))]
    fn of_first_child(kind: u32) -> Asked
        ensures { asked_of result ≡ asked_of_first (shape_of kind) }
    {
        match kind {
            DICTIONARY => Asked::Key,
            RUN_END_ENCODED => Asked::RunEnd,
            _ => Asked::Anything,
        }
    }
}

// The first row that breaks a rule, of rows in their order: a row's first child stands right behind it.
#[tactic(auto, using(crate::proofs::LayoutLaws::scans))]
fn broken_row(rows: &[u32]) -> Option<usize>
    ensures { result ≡ scan anything 0 (whole_rows rows.now) }
{
    let (whole, _) = rows.as_chunks::<ROW_WORDS>();
    let mut asked = Asked::Anything;
    for (i, row) in whole.iter().enumerate() {
        if !asked.allows(row[KIND]) {
            return Some(i);
        }
        asked = Asked::of_first_child(row[KIND]);
    }
    None
}

// The layout verdict of a sound tree: the first row that breaks a rule, none where all is well; refusal 17 where the
// tree is not sound.
#[tactic(auto, using(crate::proofs::LayoutLaws::verdicts))]
pub fn verdict_of(tree: Tree<'_>) -> Result<Option<usize>, Refusal>
    ensures { answer_of number_of result ≡ verdict_of tree.entry.text.now tree.entry.names.now tree.entry.rows.now }
{
    if is_sound(tree) {
        return Ok(broken_row(tree.rows));
    }
    Err(Refusal::NotSound)
}
