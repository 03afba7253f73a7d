// Rows as the reader writes them: a type's own row, and the words that make it a field's.
ghost use Rattle.std.specs.Prelude.{◌≤◌, ◌<◌, length};
ghost use Rattle.tokenizer.specs.Token.{rparen};
ghost use Rattle.datatype.specs.Limits.{max_rows};
ghost use Rattle.datatype.specs.Table.{row_words};
ghost use Rattle.parser.specs.Parse.{need};
ghost use Rattle.parser.specs.Internal.Steps.{Put, Closed, FieldWords, head_row};

use crate::{Extent, Parser, ReadError};
use datatype::Field;
use datatype::rows::{
    HOME, KIND, NAME_LENGTH, NAME_START, NUMBER, PARENT, ROLE, ROW_WORDS, ROWS, SCALE, UNION_ID,
    ZONE_LENGTH, ZONE_START,
};

// What a type's row says of the type alone.
#[derive(Clone, Copy)]
pub(crate) struct Head {
    pub kind: u32,
    pub number: u32,
    pub scale: u32,
    pub zone_start: u32,
    pub zone_length: u32,
}

// What it says besides the kind where there is nothing to say. By a derived `Default` thirteen functions were not proved:
// each has to be told what that call answers, where a constant is read.
pub(crate) const PLAIN: Head = Head {
    kind: 0,
    number: 0,
    scale: 0,
    zone_start: 0,
    zone_length: 0,
};

// Writes the row of a type that is no field, once all of it is read: its children fill the `used` rows behind it.
#[tactic(auto, using(crate::proofs::Stores::row_set))]
pub(crate) fn put_row(row: &mut [u32; ROW_WORDS], used: usize, head: Head, next: usize) -> Extent
    requires { used < max_rows }
    ensures { Put next used (head_row head) result row.new }
{
    row[KIND] = head.kind;
    row[ROWS] = (used + 1) as u32;
    row[ROLE] = 0;
    row[UNION_ID] = 0;
    row[NUMBER] = head.number;
    row[SCALE] = head.scale;
    row[HOME] = 0;
    row[NAME_START] = 0;
    row[NAME_LENGTH] = 0;
    row[ZONE_START] = head.zone_start;
    row[ZONE_LENGTH] = head.zone_length;
    row[PARENT] = 0;
    Extent {
        next,
        used: used + 1,
    }
}

impl<'a> Parser<'a> {
    // The mark that closes a type, whose row is then written.
    #[tactic(auto, using(crate::proofs::Rules::close_steps))]
    pub(crate) fn close(
        &self,
        row: &mut [u32; ROW_WORDS],
        at: usize,
        used: usize,
        head: Head,
    ) -> Result<Extent, ReadError>
        requires { used < max_rows }
        ensures { Closed (need self.now.text.now rparen at) used (head_row head) result row.new }
    {
        let next = self.expect_token(at, b')')?;
        Ok(put_row(row, used, head, next))
    }
}

// Writes what makes the first row a field's: role, union id, and where its name stands.
pub(crate) fn put_field(rows: &mut [u32], role: u32, id: u32, name: Field)
    requires { row_words ≤ length rows.old }
    ensures { FieldWords rows.old role id name.home name.start name.size rows.new }
{
    rows[ROLE] = role;
    rows[UNION_ID] = id;
    rows[HOME] = name.home;
    rows[NAME_START] = name.start;
    rows[NAME_LENGTH] = name.size;
}
