// The words of a row table: twelve a row.
ghost use Rattle.std.specs.Prelude.{◌≡◌};
ghost use Rattle.datatype.specs.Table.{rows_lent};

// How many words a row has, and which is which.
pub const ROW_WORDS: usize = 12;

pub const KIND: usize = 0;

pub const ROWS: usize = 1;

pub const ROLE: usize = 2;

pub const UNION_ID: usize = 3;

pub const NUMBER: usize = 4;

pub const SCALE: usize = 5;

pub const HOME: usize = 6;

pub const NAME_START: usize = 7;

pub const NAME_LENGTH: usize = 8;

pub const ZONE_START: usize = 9;

pub const ZONE_LENGTH: usize = 10;

pub const PARENT: usize = 11;

// The role of a field: nullable or not. A bare row has 0. Numbers and no enum, as word 2 of a row is, which C lends and
// may hold any.
pub const NULLABLE: u32 = 1;

pub const NON_NULL: u32 = 2;

// The limits of a sound tree: bytes of its text, rows, levels.
pub const MAX_TEXT: usize = 16384;

pub const MAX_ROWS: usize = 1024;

pub const MAX_LEVELS: usize = 64;

// The words that 1,024 rows take: what is lent to read a line into.
pub const LINE_WORDS: usize = ROW_WORDS * MAX_ROWS;

// How many rows so many words hold: whole rows, and 1,024 at the most.
#[tactic(auto, unfolding(crate::specs::Table::rows_lent))]
pub fn rows_lent(words: usize) -> usize
    ensures { result ≡ rows_lent words }
{
    (words / ROW_WORDS).min(MAX_ROWS)
}
