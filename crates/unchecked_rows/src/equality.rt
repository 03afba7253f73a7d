// Equal trees: equal words 0 to 5, equal name bytes and equal zone bytes, row by row.
ghost use Rattle.std.specs.Prelude.{◌≡◌, ◌+◌, ◌*◌, ◌≤◌, length};
ghost use Rattle.datatype.specs.Table.{row_words};
ghost use Rattle.unchecked_rows.specs.Equal.{equal_row, equal_trees};
ghost use Rattle.unchecked_rows.specs.Internal.Run.{words_at};

use datatype::rows::ROW_WORDS;
use datatype::{Row, Tree, equal_bytes, equal_words};

// The words that trees are equal in: words 0 to 5.
const EQUAL_WORDS: usize = 6;

// Whether row i of a tree says the same as row i of another tree. Names and zones are equal by their bytes and not by
// their places, which a derive would compare.
#[tactic(auto, using(crate::proofs::EqualLaws::row_cases))]
fn equal_row(one: Tree<'_>, other: Tree<'_>, i: usize) -> bool
    requires { (row_words * (i + 1) ≤ length one.rows.now) × (row_words * (i + 1) ≤ length other.rows.now) }
    ensures { result ≡ equal_row one.entry.text.now one.entry.names.now other.entry.text.now other.entry.names.now (words_at one.entry.rows.now i) (words_at other.entry.rows.now i) }
{
    let from = ROW_WORDS * i;
    let to = from + EQUAL_WORDS;
    let row = Row {
        rows: one.rows,
        at: i,
    };
    let second = Row {
        rows: other.rows,
        at: i,
    };
    equal_words(&one.rows[from..to], &other.rows[from..to])
        && equal_bytes(row.name(&one), second.name(&other))
        && equal_bytes(row.zone(one.text), second.zone(other.text))
}

// Whether two trees are equal.
#[tactic(auto, using(crate::proofs::EqualLaws::fewer_rows))]
pub fn equal_trees(one: Tree<'_>, other: Tree<'_>) -> bool
    ensures { result ≡ equal_trees one.entry.text.now one.entry.names.now other.entry.text.now other.entry.names.now one.entry.rows.now other.entry.rows.now }
{
    let n = one.rows.len() / ROW_WORDS;
    n == other.rows.len() / ROW_WORDS && (0..n).all(|i| equal_row(one, other, i))
}
