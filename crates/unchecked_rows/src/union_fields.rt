// Union ids: the check of the Rust's `UnionFields::try_new`.
ghost use Rattle.std.specs.Prelude.{◌≡◌};
ghost use Rattle.unchecked_rows.specs.UnionFields.{type_ids_fit};

use datatype::{KeptRows, Row};

// Union ids are below this.
const TYPE_IDS: u32 = 128;

// Whether the union ids of the rows that stand side by side from row `first` up to row `end` are 0 to 127 and distinct.
#[tactic(auto, using(crate::proofs::UnionLaws::lefts))]
pub fn try_new<T: KeptRows>(rows: T, first: usize, end: usize) -> bool
    ensures { result ≡ type_ids_fit (T.words rows) first end }
{
    // The ids met so far, a bit each.
    let mut seen = 0u128;
    let mut at = first;
    // No range steps by the size of a subtree, and an iterator would have to say besides where rows do not nest.
    while at < end {
        let Some(row) = Row::of(rows, at) else {
            return false;
        };
        let size = row.subtree();
        if size == 0 {
            return false;
        }
        let id = row.union_id();
        if TYPE_IDS <= id {
            return false;
        }
        if seen >> id & 1 == 1 {
            return false;
        }
        seen |= 1 << id;
        at += size;
    }
    true
}
