// Taking a column out, for services: the answer as numbers.
ghost use Rattle.std.specs.Prelude.{◌≡◌};
ghost use Rattle.arrow_types.specs.Status.{status_of};
ghost use Rattle.packing.specs.Packed.{rows_answered, bytes_answered};
ghost use Rattle.column_out.specs.ColumnOut.{column_out_answer, column_out_rows, column_out_bytes};

use column_out::take_column_out;
use datatype::Tree;
use tokenizer::Numbered;

// Takes a field, counted from 0, out of a tree whose root is a Struct: what stays stands in lent rows, over a lent text.
#[tactic(auto, unfolding(crate::specs::Status::status_of, packing::specs::Packed::rows_answered, packing::specs::Packed::bytes_answered))]
pub fn arrow_types_take_column_out<'a>(
    text: &'a [u8],
    names: &'a [u8],
    rows: &[u32],
    field: usize,
    rows_left: &mut [u32],
    text_left: &mut [u8],
    count: &mut usize,
    length: &mut usize,
) -> u32
    ensures status { result ≡ status_of (column_out_answer text.now names.now rows.now field rows_left.old text_left.old) }
    ensures count { count.new ≡ rows_answered (column_out_answer text.now names.now rows.now field rows_left.old text_left.old) }
    ensures length { length.new ≡ bytes_answered (column_out_answer text.now names.now rows.now field rows_left.old text_left.old) }
    ensures contents { rows_left.new ≡ column_out_rows text.now names.now rows.now field rows_left.old text_left.old }
    ensures bytes { text_left.new ≡ column_out_bytes text.now names.now rows.now field rows_left.old text_left.old }
{
    *count = 0;
    *length = 0;
    match take_column_out(Tree { text, names, rows }, field, rows_left, text_left) {
        Ok(left) => {
            *count = left.rows;
            *length = left.bytes;
            0
        }
        Err(e) => e.number(),
    }
}
