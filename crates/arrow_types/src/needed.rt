// The slot file's own check for services: the answer as numbers.
ghost use Rattle.std.specs.Prelude.{◌≡◌};
ghost use Rattle.arrow_types.specs.Status.{status_of, yes_of, unmet_of};
ghost use Rattle.needs.specs.Needs.{needs_of};

use datatype::Tree;
use needs::Need;
use tokenizer::Numbered;

// Whether a tree has the columns that are needed: whether it is yes, 1 or 0, and the first need that is not met, where it is
// not. Each need has its name in the text of needs.
#[tactic(auto, unfolding(crate::specs::Status::status_of, crate::specs::Status::yes_of, crate::specs::Status::row_of))]
pub fn arrow_types_needs(
    text: &[u8],
    names: &[u8],
    rows: &[u32],
    needs_text: &[u8],
    needs: &[Need],
    yes: &mut u32,
    need: &mut usize,
) -> u32
    ensures status { result ≡ status_of (needs_of text.now names.now rows.now needs_text.now needs.now) }
    ensures yes { yes.new ≡ yes_of (needs_of text.now names.now rows.now needs_text.now needs.now) }
    ensures need { need.new ≡ unmet_of (needs_of text.now names.now rows.now needs_text.now needs.now) }
{
    *yes = 0;
    *need = 0;
    match needs::fits(Tree { text, names, rows }, needs_text, needs) {
        Ok(None) => {
            *yes = 1;
            0
        }
        Ok(Some(i)) => {
            *need = i;
            0
        }
        Err(e) => e.number(),
    }
}
