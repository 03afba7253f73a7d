//! Writing a row's half words, and its words, behind those of the rows before it: where there is room for all rows.
ghost use Rattle.std.specs.Prelude.{◌≡◌, ◌+◌, ◌*◌, ◌≤◌, length, take};
ghost use Rattle.std.proofs.lemmas.List.Edits.{sets};
ghost use Rattle.datatype.specs.Table.{row_words};
ghost use Rattle.half_rows.specs.HalfRows.{half_words, halves_of, halved_rows, unhalved};
ghost use Rattle.half_rows.specs.Internal.Small.{AllSmall, IsSmall, row_of_words};

use crate::HALF_ROW_WORDS;
use crate::halves::{HALF_VALUES, Halves};
use datatype::rows::{
    HOME, KIND, NAME_LENGTH, NAME_START, NUMBER, PARENT, ROLE, ROW_WORDS, ROWS, SCALE, UNION_ID,
    ZONE_LENGTH, ZONE_START,
};
use datatype::{KeptRows, Row};

// A row in halves.
#[tactic(auto, using(crate::proofs::Keeping::row_steps))]
fn half_row(row: Row<&[u32]>) -> [u16; HALF_ROW_WORDS]
    requires { IsSmall row.rows.now row.at }
    ensures { result ≡ halves_of (row_of_words row.entry.rows.now row.entry.at) }
{
    let number = row.number();
    let name = row.field();
    [
        row.kind() as u16,
        row.subtree() as u16,
        row.role() as u16,
        row.union_id() as u16,
        (number % HALF_VALUES) as u16,
        (number / HALF_VALUES) as u16,
        row.scale() as u16,
        name.home as u16,
        name.start as u16,
        name.size as u16,
        row.zone_start() as u16,
        row.zone_length() as u16,
        row.parent() as u16,
    ]
}

// Writes so many rows of a table in halves.
pub(crate) fn put_halves(rows: &[u32], count: usize, halves: &mut [u16])
    requires there { row_words * count ≤ length rows.now }
    requires room { half_words * count ≤ length halves.old }
    requires small { AllSmall rows.now count }
    ensures { halves.new ≡ sets halves.old 0 (halved_rows count rows.now) }
{
    for i in 0..count {
        let row = half_row(Row { rows, at: i });
        let at = HALF_ROW_WORDS * i;
        halves[at..at + HALF_ROW_WORDS].copy_from_slice(&row);
    }
}

// Row i of rows in halves, as wide words.
#[tactic(auto, using(crate::proofs::Keeping::wide_steps))]
fn wide_row(halves: Halves<'_>, i: usize) -> [u32; ROW_WORDS]
    requires { row_words * (i + 1) ≤ length (unhalved halves.halves.now) }
    ensures { result ≡ row_of_words (unhalved halves.entry.halves.now) i }
{
    [
        halves.word(i, KIND),
        halves.word(i, ROWS),
        halves.word(i, ROLE),
        halves.word(i, UNION_ID),
        halves.word(i, NUMBER),
        halves.word(i, SCALE),
        halves.word(i, HOME),
        halves.word(i, NAME_START),
        halves.word(i, NAME_LENGTH),
        halves.word(i, ZONE_START),
        halves.word(i, ZONE_LENGTH),
        halves.word(i, PARENT),
    ]
}

// Writes so many rows in halves as wide rows.
pub(crate) fn put_words(halves: Halves<'_>, count: usize, rows: &mut [u32])
    requires there { row_words * count ≤ length (unhalved halves.halves.now) }
    requires room { row_words * count ≤ length rows.old }
    ensures { rows.new ≡ sets rows.old 0 (take (row_words * count) (unhalved halves.entry.halves.now)) }
{
    for i in 0..count {
        let row = wide_row(halves, i);
        let at = ROW_WORDS * i;
        rows[at..at + ROW_WORDS].copy_from_slice(&row);
    }
}
