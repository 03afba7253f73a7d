// A row of a table, read by the names of its words.
ghost use Rattle.std.specs.Prelude.{◌≡◌, ◌+◌, ◌*◌, ◌≤◌, ◌<◌, ◌^◌, length, MatchOption, ⊤};
ghost use Rattle.datatype.specs.Label.{label_said};
ghost use Rattle.datatype.specs.Tree.{name_of, zone_of, label_of};
ghost use Rattle.datatype.specs.Table.{row_words, rows_at, parent_word_at, row_at, word_at};

use crate::field::{Field, zone};
use crate::rows::{
    HOME, KIND, NAME_LENGTH, NAME_START, NUMBER, PARENT, ROLE, ROWS, SCALE, UNION_ID, ZONE_LENGTH,
    ZONE_START,
};
use crate::{KeptRows, Label, Tree};
use std::alloc::AllocError;

// Row `at` of a table, which the table has.
pub struct Row<T: KeptRows> {
    pub rows: T,
    pub at: usize,
    ghost there: { row_words * (at + 1) ≤ length (T.words rows) },
}

impl<T: KeptRows> Clone for Row<T> {
    ghost is_clone = { λ x y. y ≡ x };

    ghost is_infallible = { λ _. ⊤ };

    fn clone(&self) -> Result<Row<T>, AllocError> {
        Ok(*self)
    }
}

impl<T: KeptRows> Copy for Row<T> {}

impl<T: KeptRows> Row<T> {
    // Row i of a table, if the table has it.
    pub fn of(rows: T, i: usize) -> Option<Row<T>>
        ensures { MatchOption result (length (T.words rows) < row_words * (i + 1)) (λ row. (row.rows ≡ rows) × (row.at ≡ i) × (i < 2 ^ 60)) }
    {
        if rows.count() <= i {
            return None;
        }
        Some(Row { rows, at: i })
    }

    // Word k.
    fn word(self, k: usize) -> u32
        requires { k < row_words }
        ensures { result ≡ word_at (T.words self.rows) self.at k }
    {
        self.rows.word(self.at, k)
    }

    pub fn kind(self) -> u32
        ensures { result ≡ word_at (T.words self.rows) self.at 0 }
    {
        self.word(KIND)
    }

    // How many rows the row's subtree has, itself included.
    pub fn subtree(self) -> usize
        ensures rows { result ≡ rows_at (T.words self.rows) self.at }
        ensures few { result < 2 ^ 32 }
    {
        self.word(ROWS) as usize
    }

    pub fn role(self) -> u32
        ensures { result ≡ word_at (T.words self.rows) self.at 2 }
    {
        self.word(ROLE)
    }

    pub fn union_id(self) -> u32
        ensures { result ≡ word_at (T.words self.rows) self.at 3 }
    {
        self.word(UNION_ID)
    }

    // A unit, a length, a precision, a mode, or sorted or not.
    pub fn number(self) -> u32
        ensures { result ≡ word_at (T.words self.rows) self.at 4 }
    {
        self.word(NUMBER)
    }

    // A decimal's scale plus 128.
    pub fn scale(self) -> u32
        ensures { result ≡ word_at (T.words self.rows) self.at 5 }
    {
        self.word(SCALE)
    }

    // Where the row's name stands, as its words have it.
    pub fn field(self) -> Field
        ensures home { result.home ≡ word_at (T.words self.rows) self.at 6 }
        ensures start { result.start ≡ word_at (T.words self.rows) self.at 7 }
        ensures size { result.size ≡ word_at (T.words self.rows) self.at 8 }
    {
        Field {
            home: self.word(HOME),
            start: self.word(NAME_START),
            size: self.word(NAME_LENGTH),
        }
    }

    pub fn zone_start(self) -> u32
        ensures { result ≡ word_at (T.words self.rows) self.at 9 }
    {
        self.word(ZONE_START)
    }

    pub fn zone_length(self) -> u32
        ensures { result ≡ word_at (T.words self.rows) self.at 10 }
    {
        self.word(ZONE_LENGTH)
    }

    pub fn parent(self) -> usize
        ensures { result ≡ parent_word_at (T.words self.rows) self.at }
    {
        self.word(PARENT) as usize
    }

    // The row's name, from whichever of a tree's text and name list is its home: empty where its words do not fit.
    pub fn name<'a>(self, tree: &Tree<'a>) -> &'a [u8]
        ensures { result.now ≡ name_of tree.now.text.now tree.now.names.now (word_at (T.words self.rows) self.at 6) (word_at (T.words self.rows) self.at 7) (word_at (T.words self.rows) self.at 8) }
    {
        self.field().name(tree.text, tree.names)
    }

    // The row's zone, as a part of the text: empty where its words do not fit.
    pub fn zone(self, text: &[u8]) -> &[u8]
        ensures { result.now ≡ zone_of text.now (word_at (T.words self.rows) self.at 9) (word_at (T.words self.rows) self.at 10) }
    {
        zone(text, self.zone_start(), self.zone_length())
    }

    /// What the row says of a tree whose row it is.
    #[tactic(auto, unfolding(crate::specs::Tree::label_of, crate::specs::Table::row_at))]
    pub fn label<'a>(self, tree: &Tree<'a>) -> Label<'a>
        ensures { label_said result ≡ label_of tree.now.text.now tree.now.names.now (row_at (T.words self.rows) self.at) }
    {
        Label {
            kind: self.kind(),
            role: self.role(),
            union_id: self.union_id(),
            number: self.number(),
            scale: self.scale(),
            name: self.name(tree),
            zone: self.zone(tree.text),
        }
    }
}
