// Map's entries: a non-null Struct of two fields, the first of them, the key, non-null.
ghost use Rattle.std.specs.Prelude.{◌≡◌, length, nat_eq};
ghost use Rattle.unchecked_rows.specs.MapEntries.{listed, refused_with, entries_refusal_at};
ghost use Rattle.unchecked_rows.specs.Internal.Beside.{behind_at, beside};

use datatype::kind::STRUCT;
use datatype::rows::NON_NULL;
use datatype::{KeptRows, Row};
use tokenizer::Refusal;

// The row behind the subtree of row `at`, which stands before row `end`: none where it does not, is not in the table or
// has no rows in its subtree.
#[tactic(auto, unfolding(crate::specs::Internal::Beside::behind_at))]
fn behind<T: KeptRows>(rows: T, at: usize, end: usize) -> Option<usize>
    ensures { result ≡ behind_at (T.words rows) at end }
{
    if end <= at {
        return None;
    }
    let size = Row::of(rows, at)?.subtree();
    if size == 0 {
        return None;
    }
    Some(at + size)
}

// Whether two rows stand side by side from row `first` up to row `end`: what `row_table` asks of whole trees, of rows of which
// nothing is known.
#[tactic(auto, using(crate::proofs::SiblingLaws::beside_steps), unfolding(crate::specs::Internal::Beside::behind_at))]
fn are_two<T: KeptRows>(rows: T, first: usize, end: usize) -> bool
    ensures { result ≡ nat_eq (length (listed (beside 2 (T.words rows) first end))) 2 }
{
    let Some(second) = behind(rows, first, end) else {
        return false;
    };
    let Some(third) = behind(rows, second, end) else {
        return false;
    };
    end <= third
}

// Refuses a row, with its subtree, that is no Map's entries.
#[tactic(auto, using(crate::proofs::EntryLaws::entries))]
pub fn check_entries<T: KeptRows>(rows: T, row: usize) -> Result<(), Refusal>
    ensures { refused_with result ≡ entries_refusal_at (T.words rows) row }
{
    let entries = Row::of(rows, row).ok_or(Refusal::WrongMapEntries)?;
    if entries.role() != NON_NULL {
        return Err(Refusal::MustBeNonNull);
    }
    if entries.kind() != STRUCT || !are_two(rows, row + 1, row + entries.subtree()) {
        return Err(Refusal::WrongMapEntries);
    }
    let key = Row { rows, at: row + 1 };
    if key.role() != NON_NULL {
        return Err(Refusal::MustBeNonNull);
    }
    Ok(())
}
