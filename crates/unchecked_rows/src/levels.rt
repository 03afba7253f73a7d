// How many levels rows have. Rows, a first and an end are handed over as they are, here and in map_entries.rt and
// union_fields.rt: nothing is known of such rows there, and that they are in the table is asked by `levels` alone.
ghost use Rattle.std.specs.Prelude.{◌≡◌, ◌+◌, ◌-◌, ◌*◌, ◌≤◌, length, IfSome};
ghost use Rattle.datatype.specs.Limits.{max_levels};
ghost use Rattle.datatype.specs.Table.{row_words};
ghost use Rattle.unchecked_rows.specs.Levels.{levels_of};
ghost use Rattle.unchecked_rows.specs.Internal.Levels.{levels_in, levels_or};

use datatype::Row;
use datatype::rows::{MAX_LEVELS, ROW_WORDS};

// How many levels rows start to end have, where they nest and have at most so many.
#[tactic(auto, using(crate::proofs::LevelLaws::levels))]
fn levels(rows: &[u32], most: usize, start: usize, end: usize) -> Option<usize>
    requires { (row_words * end ≤ length rows.now) × (start ≤ end) × (most ≤ max_levels) }
    ensures are { levels_or most result ≡ levels_in most rows.now start end }
    ensures few { IfSome result (λ n. n ≤ most) }
{
    let mut deepest = 0usize;
    let mut at = start;
    // No range steps by the size of a subtree, and an iterator would have to say besides where rows do not nest.
    while at < end {
        let size = Row { rows, at }.subtree();
        if most == 0 || size == 0 || end - at < size {
            return None;
        }
        let below = levels(rows, most - 1, at + 1, at + size)?;
        deepest = deepest.max(below + 1);
        at += size;
    }
    Some(deepest)
}

// How many levels the rows of a table have, by their subtrees alone: 0 where they do not nest, or have more than 64. A
// number and no `Option`, since the definition has 0 for them, and no caller asks which it is: `row_table::depth_of` has
// checked its rows, and `answer_line` counts the levels of rows as they are.
#[tactic(auto, using(crate::proofs::LevelLaws::tables))]
pub fn levels_of(rows: &[u32]) -> usize
    ensures { result ≡ levels_of rows.now }
{
    let n = rows.len() / ROW_WORDS;
    if rows.len() != ROW_WORDS * n {
        return 0;
    }
    levels(rows, MAX_LEVELS, 0, n).unwrap_or(0)
}
