// Parents of rows: set once for a whole table, and checked.
ghost use Rattle.std.specs.Prelude.{◌≡◌, ◌+◌, ◌*◌, ◌≤◌, min, length};
ghost use Rattle.datatype.specs.Table.{row_words, rows_lent};
ghost use Rattle.unchecked_rows.specs.Parents.{parent_at, parents_set, with_parents, parents_fit};
ghost use Rattle.unchecked_rows.specs.Internal.Climb.{Climbs};

use datatype::rows::{MAX_ROWS, PARENT, ROW_WORDS, rows_lent};
use datatype::{KeptRows, Row};

// The row that a row stands under, where the rows before it have their parents: the row before it, or the first row up
// from that one whose subtree holds it.
#[tactic(auto, using(crate::proofs::ParentClimb::climbs))]
fn parent_of<T: KeptRows>(row: Row<T>) -> usize
    requires { Climbs (T.words row.rows) row.at }
    ensures { result ≡ parent_at (T.words row.rows) row.at }
{
    if row.at == 0 {
        return 0;
    }
    let mut p = row.at - 1;
    // It climbs from parent to parent, and no range has their places; by `successors` a closure's clauses would have to say
    // of each place what the loop's invariant says once.
    while 0 < p {
        let above = Row {
            rows: row.rows,
            at: p,
        };
        if row.at - p < above.subtree() {
            return p;
        }
        p = above.parent();
    }
    0
}

// Sets the parents of the first n rows, or of as many as the table holds where those are fewer: what a builder of n
// rows in a lent buffer calls last. Each row is passed once, and climbed from once at the most.
#[tactic(auto, using(crate::proofs::ParentSet::lent))]
pub fn set_first_parents(rows: &mut [u32], n: usize)
    ensures { rows.new ≡ parents_set rows.old (min n (rows_lent (length rows.old))) }
{
    for i in 0..n.min(rows_lent(rows.len())) {
        rows[ROW_WORDS * i + PARENT] = parent_of(Row {
            rows: &*rows,
            at: i,
        }) as u32;
    }
}

// Sets the parents of all rows that a table holds, up to 1,024.
#[tactic(auto, using(crate::proofs::ParentSet::lent_small), unfolding(crate::specs::Parents::with_parents))]
pub fn set_parents(rows: &mut [u32])
    ensures { rows.new ≡ with_parents rows.old }
{
    set_first_parents(rows, MAX_ROWS);
}

// Whether each row of a table has its parent.
pub fn parents_fit<T: KeptRows>(rows: T) -> bool
    ensures { result ≡ parents_fit (T.words rows) }
{
    // A row is asked only where the rows before it have their parents.
    (0..rows.count()).all(
        |i|
            requires { (row_words * (i + 1) ≤ length (T.words rows)) × Climbs (T.words rows) i }
        {
            let row = Row { rows, at: i };
            row.parent() == parent_of(row)
        },
    )
}
