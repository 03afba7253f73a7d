// The answer to a text that was read: its tree's rows, depth and printed text, or the refusal of the printer.
ghost use Rattle.datatype.specs.Limits.{max_text};
ghost use Rattle.datatype_display.specs.Print.{default_spelling, print};
ghost use Rattle.answer_line.specs.Internal.Steps.{Answers, tree_line, table_line};

use crate::write::Head;
use crate::{ANSWER_BYTES, write};
use datatype::rows::ROW_WORDS;
use datatype_display::{DEFAULT_SPELLING, print_sound_tree};
use row_table::nodes::SoundTree;

// The answer with its head at hand. What is printed stands where it belongs before the head is written, so that a
// refused print has written nothing.
#[tactic(auto, using(crate::proofs::Trees::print_enough), unfolding(datatype_display::specs::Print::default_spelling))]
fn print_tree(whole: &SoundTree<'_>, head: Head, out: &mut [u8; ANSWER_BYTES]) -> usize
    ensures { Answers (tree_line head.rows head.levels (print default_spelling whole.now.tree.text.now whole.now.tree.names.now whole.now.tree.rows.now max_text)) out.old result out.new }
{
    let at = head.length();
    match print_sound_tree(DEFAULT_SPELLING, whole, &mut out[at..]) {
        Err(refusal) => write::put_no(out, refusal),
        Ok(n) => head.frame(out, n),
    }
}

// The answer to a text that was read into a sound tree.
#[tactic(auto, using(crate::proofs::Trees::head_fits), unfolding(crate::specs::Internal::Steps::table_line))]
pub(crate) fn answer_tree(whole: &SoundTree<'_>, out: &mut [u8; ANSWER_BYTES]) -> usize
    ensures { Answers (table_line whole.now.tree.text.now whole.now.tree.names.now whole.now.tree.rows.now) out.old result out.new }
{
    let head = Head {
        rows: whole.tree.rows.len() / ROW_WORDS,
        levels: whole.levels(),
    };
    print_tree(whole, head, out)
}
