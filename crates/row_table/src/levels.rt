// The depth of a sound tree.
ghost use Rattle.std.specs.Prelude.{◌≡◌};
ghost use Rattle.tokenizer.specs.Answer.{number_of, answer_of};
ghost use Rattle.row_table.specs.Sound.{depth_of};

use crate::nodes::SoundTree;
use datatype::Tree;
use tokenizer::Refusal;

// The depth of a sound tree; refusal 17 where the tree is not sound.
#[tactic(auto, using(crate::proofs::DepthLaws::depths))]
pub fn depth_of(tree: Tree<'_>) -> Result<usize, Refusal>
    ensures { answer_of number_of result ≡ depth_of tree.entry.text.now tree.entry.names.now tree.entry.rows.now }
{
    let Some(whole) = SoundTree::of(tree) else {
        return Err(Refusal::NotSound);
    };
    Ok(whole.levels())
}
