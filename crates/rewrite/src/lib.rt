// Rewriting a type text so that nothing is lost: it is read, printed, read back and compared.

#![tactic(auto)]

ghost use Rattle.std.specs.Prelude.{◌≡◌, length, replicate};
ghost use Rattle.datatype_parse.specs.Parse.{parse_rows};
ghost use Rattle.round_trip.specs.PrintAndRead.{print_and_read_rows};
ghost use Rattle.rewrite.specs.Rewrite.{rewritten_means, printed_again, bytes_again, rewrite_answer, rewrite_bytes, rewrite_back};

use datatype::rows::ROW_WORDS;
use datatype::{Field, Tree};
use datatype_parse::parse_data_type;
use display_length::Spelling;
use parser::ReadError;
use print_and_read::print_and_read_sound_tree;
use round_trip::{NotReadBack, PrintedAndRead};
use row_table::nodes::SoundTree;
use tokenizer::Refusal;
use unchecked_rows::equal_trees;

// Why a text was not rewritten: the step that refused, with its refusal; or what was printed reads back as another tree.
#[derive(Clone, Copy, Debug, PartialEq, Eq)]
pub enum NotRewritten {
    NotRead(ReadError),
    NotPrinted(Refusal),
    NotReadBack(ReadError),
    Differs,
}

fn clear(out: &mut [u8])
    ensures { out.new ≡ replicate (length out.old) 0 }
{
    out.fill(0);
}

// Prints a tree, reads it back and compares the two. A text that does not read back as the tree is cleared.
#[tactic(auto, using(crate::proofs::Rewrites::compared_steps))]
fn print_again(
    spelling: Spelling,
    whole: &SoundTree<'_>,
    out: &mut [u8],
    back: &mut [u32],
) -> Result<PrintedAndRead, NotRewritten>
    ensures answer { rewritten_means result ≡ printed_again spelling whole.now.tree.text.now whole.now.tree.names.now whole.now.tree.rows.now out.old back.old }
    ensures bytes { out.new ≡ bytes_again spelling whole.now.tree.text.now whole.now.tree.names.now whole.now.tree.rows.now out.old back.old }
    ensures contents { back.new ≡ print_and_read_rows spelling whole.now.tree.text.now whole.now.tree.names.now whole.now.tree.rows.now out.old back.old }
{
    match print_and_read_sound_tree(spelling, whole, out, back) {
        Err(NotReadBack::NotPrinted(refusal)) => Err(NotRewritten::NotPrinted(refusal)),
        Err(NotReadBack::NotRead(error)) => {
            clear(out);
            Err(NotRewritten::NotReadBack(error))
        }
        Ok(read) => {
            let again = Tree {
                text: &out[..read.bytes],
                names: whole.tree.names,
                rows: &back[..ROW_WORDS * read.rows],
            };
            if equal_trees(again, whole.tree) {
                return Ok(read);
            }
            clear(out);
            Err(NotRewritten::Differs)
        }
    }
}

// Rewrites a type text in a spelling: the text printed stands at the start of the output. Where nothing was printed the
// output is as it was; where what was printed does not read back as the same tree it is all zeros.
pub fn rewrite(
    spelling: Spelling,
    text: &[u8],
    rows: &mut [u32],
    out: &mut [u8],
    back: &mut [u32],
) -> Result<PrintedAndRead, NotRewritten>
    ensures answer { rewritten_means result ≡ rewrite_answer spelling text.now rows.old out.old back.old }
    ensures contents { rows.new ≡ parse_rows text.now rows.old }
    ensures bytes { out.new ≡ rewrite_bytes spelling text.now rows.old out.old back.old }
    ensures again { back.new ≡ rewrite_back spelling text.now rows.old out.old back.old }
{
    let count = match parse_data_type(text, rows) {
        Ok(count) => count,
        Err(error) => return Err(NotRewritten::NotRead(error)),
    };
    let tree = Tree {
        text,
        names: &Field::NAME_LIST,
        rows: &rows[..ROW_WORDS * count],
    };
    // What was just read is sound, and is not tested again.
    print_again(spelling, &SoundTree { tree }, out, back)
}
