// What a kind asks of its children: how many there are, and what some shapes ask besides.
ghost use Rattle.std.specs.Prelude.{◌≡◌, ◌-◌, ◌*◌, ◌≤◌, ◌<◌, true, length, nat_eq, ⊤};
ghost use Rattle.datatype.specs.Table.{row_words};
ghost use Rattle.datatype.specs.Tree.{∅, roots};
ghost use Rattle.unchecked_rows.specs.Internal.Run.{is_run, run_at};
ghost use Rattle.row_table.specs.Internal.Check.{trees, children_fit};

use datatype::kind::{DICTIONARY, LARGE_LIST_VIEW, LIST, MAP, RUN_END_ENCODED, STRUCT, UNION};
use datatype::rows::NON_NULL;
use datatype::{KeptRows, Row};
use std::alloc::AllocError;
use unchecked_rows::{check_entries, try_new};

// Whether a row of a kind may have no children.
#[tactic(auto, using(datatype::proofs::KindShapes::by_shape), unfolding(crate::specs::Internal::Check::children_fit, crate::specs::Sound::rules_of, crate::specs::Sound::arity_fits, datatype::specs::Kind::ids_fit))]
pub(crate) fn is_childless(kind: u32) -> bool
    ensures { result ≡ children_fit kind ∅ }
{
    !matches!(
        kind,
        LIST..=LARGE_LIST_VIEW | DICTIONARY | MAP | RUN_END_ENCODED
    )
}

// Rows side by side: start to end of a table.
pub(crate) struct Run<T: KeptRows> {
    pub(crate) rows: T,
    pub(crate) start: usize,
    pub(crate) end: usize,
    ghost ordered: { start ≤ end },
    ghost room: { row_words * end ≤ length (T.words rows) },
}

impl<T: KeptRows> Clone for Run<T> {
    ghost is_clone = { λ x y. y ≡ x };

    ghost is_infallible = { λ _. ⊤ };

    fn clone(&self) -> Result<Run<T>, AllocError> {
        Ok(*self)
    }
}

impl<T: KeptRows> Copy for Run<T> {}

impl<T: KeptRows> Run<T> {
    // The first row.
    fn first_row(&self) -> Row<T>
        requires { self.now.start < self.now.end }
        ensures rows { result.rows ≡ self.now.rows }
        ensures at { result.at ≡ self.now.start }
    {
        Row {
            rows: self.rows,
            at: self.start,
        }
    }
}

// The children of a row: rows that are whole trees.
pub(crate) struct Children<T: KeptRows> {
    pub(crate) run: Run<T>,
    ghost whole: { is_run (run_at (T.words run.rows) run.start (run.end - run.start)) ≡ true },
}

impl<T: KeptRows> Clone for Children<T> {
    ghost is_clone = { λ x y. y ≡ x };

    ghost is_infallible = { λ _. ⊤ };

    fn clone(&self) -> Result<Children<T>, AllocError> {
        Ok(*self)
    }
}

impl<T: KeptRows> Copy for Children<T> {}

impl<T: KeptRows> Children<T> {
    // Whether there is one child.
    #[tactic(auto, using(crate::proofs::ChildLaws::counts))]
    fn is_one(&self) -> bool
        ensures { result ≡ nat_eq (length (roots (trees (T.words self.now.run.rows) self.now.run.start self.now.run.end))) 1 }
    {
        let run = &self.run;
        run.start < run.end && run.start + run.first_row().subtree() == run.end
    }

    // Whether there are two children. They are whole trees, so that the count of rows in each can be trusted.
    #[tactic(auto, using(crate::proofs::ChildLaws::counts))]
    fn are_two(&self) -> bool
        ensures { result ≡ nat_eq (length (roots (trees (T.words self.now.run.rows) self.now.run.start self.now.run.end))) 2 }
    {
        let run = &self.run;
        if run.start == run.end {
            return false;
        }
        let later = Run {
            start: run.start + run.first_row().subtree(),
            end: run.end,
            rows: run.rows,
        };
        (Children { run: later }).is_one()
    }

    // Whether they can be the children of a row of a kind.
    #[tactic(auto, using(crate::proofs::ChildLaws::kids))]
    pub(crate) fn fit(&self, kind: u32) -> bool
        ensures { result ≡ children_fit kind (trees (T.words self.now.run.rows) self.now.run.start self.now.run.end) }
    {
        let run = &self.run;
        match kind {
            STRUCT => true,
            UNION => try_new(run.rows, run.start, run.end),
            DICTIONARY => self.are_two(),
            LIST..=LARGE_LIST_VIEW => self.is_one(),
            MAP => self.is_one() && check_entries(run.rows, run.start).is_ok(),
            RUN_END_ENCODED => self.are_two() && run.first_row().role() == NON_NULL,
            _ => run.start == run.end,
        }
    }
}
