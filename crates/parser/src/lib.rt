// The readers of types: text becomes rows, or is refused. The functions are named after those of the Rust's `Parser`. A
// row is lent as an array, and the rows below it as a slice, which says how many are left; a parent's row is written once
// its children are read. That a slice is no longer than 1,024 rows stays a clause (`Room`): its type says no length, and a
// struct that held the loan would be taken apart at each call. Row, rows below, kind, place and level are no struct for the
// same reason: each call hands on others.

#![tactic(auto)]

ghost use Rattle.std.specs.Prelude.{◌≡◌, ◌≤◌, ◌++◌, length};
ghost use Rattle.parser.specs.Answer.{read_answer};
ghost use Rattle.datatype.specs.Limits.{max_text};
ghost use Rattle.datatype.specs.Table.{rows_lent};
ghost use Rattle.parser.specs.Parse.{id_of, scale_of, field_at, list_field, list_name_at, named_run_ends, default_run_ends, list_at, fixed_size_list_at, struct_at, union_at, union_field, dictionary_at, map_at, run_end_encoded_at, type_at, first_type, read_of, rows_of};
ghost use Rattle.parser.specs.Internal.Steps.{Room, RoomBelow, Meets, MeetsFields, rows_left, integer_kind, span_of};

use crate::rows::{Head, PLAIN, put_field, put_row};
use crate::tokens::mark_before;
use datatype::kind::{
    DECIMAL32, DECIMAL64, DECIMAL128, DECIMAL256, DICTIONARY, DURATION, FIXED_SIZE_BINARY,
    FIXED_SIZE_LIST, INTERVAL, LARGE_LIST, LARGE_LIST_VIEW, LIST, LIST_VIEW, MAP, RUN_END_ENCODED,
    STRUCT, TIME32, TIME64, TIMESTAMP, UNION,
};
use datatype::rows::{MAX_LEVELS, MAX_TEXT, NON_NULL, NULLABLE, ROW_WORDS, rows_lent};
use datatype::{Field, Row};
pub use error::ReadError;
use tokenizer::Refusal;

mod error;
mod leaves;
mod rows;
mod tokens;
mod zones;

// A text that is read.
#[derive(Drop)]
pub(crate) struct Parser<'a> {
    text: &'a [u8],
    ghost short: { length text.now ≤ max_text },
}

// A type or a field, or some fields, that were read: the place behind, and how many rows were filled.
#[derive(Clone, Copy)]
pub struct Extent {
    pub next: usize,
    pub used: usize,
}

// A word or a number that was read, and the place behind it.
#[derive(Clone, Copy)]
pub(crate) struct ReadValue<T> {
    pub value: T,
    pub next: usize,
}

impl ReadValue<i8> {
    // A row keeps a union id with 256 added to a negative one.
    fn as_union_id(self) -> u32
        ensures { result ≡ id_of (integer_kind self.value) }
    {
        u32::from(self.value.cast_unsigned())
    }

    // A row keeps a decimal's scale plus 128, which is never negative.
    pub(crate) fn as_scale(self) -> u32
        ensures { result ≡ scale_of (integer_kind self.value) }
    {
        (i32::from(self.value) + 128) as u32
    }
}

// Where a string starts, how long it is, and the place behind it.
#[derive(Clone, Copy)]
pub(crate) struct Span {
    pub start: usize,
    pub size: usize,
    pub next: usize,
}

impl<'a> Parser<'a> {
    // ---- types and fields: the functions that call one another, with the level falling

    // A type at a place: a level (3) and a row (4) must be left, then its word is judged.
    #[cycle(types)]
    #[tactic(auto, using(crate::proofs::Rules::next_type_steps))]
    fn parse_next_type(
        &self,
        rows: &mut [u32],
        at: usize,
        level: usize,
    ) -> Result<Extent, ReadError>
        requires { Room rows.old }
        ensures { Meets (type_at self.now.text.now level at (rows_left rows.old)) rows.old result rows.new }
    {
        if level == 0 {
            return Err(self.make_error(Refusal::TooDeep, at));
        }
        let Some((row, below)) = rows.split_first_chunk_mut::<ROW_WORDS>() else {
            return Err(self.make_error(Refusal::TooManyRows, at));
        };
        let word = self.parse_type_word(at)?;
        let kind = word.value;
        let next = word.next;
        let level = level - 1;
        match kind {
            TIMESTAMP => self.parse_timestamp(row, kind, next),
            TIME32 | TIME64 | DURATION => self.parse_time(row, kind, next),
            INTERVAL => self.parse_interval(row, kind, next),
            FIXED_SIZE_BINARY => self.parse_fixed_size_binary(row, kind, next),
            LIST | LIST_VIEW | LARGE_LIST | LARGE_LIST_VIEW => {
                self.parse_list(row, below, kind, next, level)
            }
            FIXED_SIZE_LIST => self.parse_fixed_size_list(row, below, kind, next, level),
            STRUCT => self.parse_struct(row, below, kind, next, level),
            UNION => self.parse_union(row, below, kind, next, level),
            DICTIONARY => self.parse_dictionary(row, below, kind, next, level),
            DECIMAL32 | DECIMAL64 | DECIMAL128 | DECIMAL256 => {
                self.parse_decimal(row, kind, next)
            }
            MAP => self.parse_map(row, below, kind, next, level),
            RUN_END_ENCODED => self.parse_run_end_encoded(row, below, kind, next, level),
            _ => Ok(put_row(row, 0, Head { kind, ..PLAIN }, next)),
        }
    }

    // "name": [nullability] type, with a union id.
    #[cycle(types)]
    #[tactic(auto, using(crate::proofs::Rules::field_steps, crate::proofs::Readers::read_most, crate::proofs::Readers::read_some))]
    fn parse_field(
        &self,
        rows: &mut [u32],
        id: u32,
        at: usize,
        level: usize,
    ) -> Result<Extent, ReadError>
        requires { Room rows.old }
        ensures { Meets (field_at self.now.text.now (type_at self.now.text.now level) id at (rows_left rows.old)) rows.old result rows.new }
    {
        let name = self.parse_double_quoted_string(at)?;
        let colon = self.expect_token(name.next, b':')?;
        let null = self.parse_opt_nullable(colon);
        let tree = self.parse_next_type(rows, null.next, level)?;
        let label = Field {
            home: Field::IN_TEXT,
            start: name.start as u32,
            size: name.size as u32,
        };
        put_field(rows, null.value, id, label);
        Ok(tree)
    }

    // [nullability] type [, field: 'name'].
    #[cycle(types)]
    #[tactic(auto, using(crate::proofs::Rules::list_field_steps, crate::proofs::Readers::read_most, crate::proofs::Readers::read_some))]
    fn parse_list_field(
        &self,
        rows: &mut [u32],
        at: usize,
        level: usize,
    ) -> Result<Extent, ReadError>
        requires { Room rows.old }
        ensures { Meets (list_field self.now.text.now (type_at self.now.text.now level) at (rows_left rows.old)) rows.old result rows.new }
    {
        let null = self.parse_opt_nullable(at);
        let item = self.parse_next_type(rows, null.next, level)?;
        let Some(comma) = self.next_if(item.next, b',') else {
            put_field(rows, null.value, 0, Field::LIST_FIELD);
            return Ok(item);
        };
        let name = self.parse_list_name(comma)?;
        let label = Field {
            home: Field::IN_TEXT,
            start: name.start as u32,
            size: name.size as u32,
        };
        put_field(rows, null.value, 0, label);
        Ok(Extent {
            next: name.next,
            used: item.used,
        })
    }

    // A list's name behind the comma: field: 'name'.
    #[tactic(auto, using(crate::proofs::Rules::list_name_steps))]
    fn parse_list_name(&self, at: usize) -> Result<Span, ReadError>
        ensures { read_answer result ≡ span_of (list_name_at self.now.text.now at) }
    {
        let word = self.expect_field(at)?;
        let colon = self.expect_token(word, b':')?;
        self.parse_single_quoted_string(colon)
    }

    // ---- types with children: the row of their own, and the rows and levels left below it

    // List, ListView, LargeList and LargeListView.
    #[cycle(types)]
    #[tactic(auto, using(crate::proofs::Rules::list_steps, crate::proofs::Readers::read_most, crate::proofs::Readers::read_some))]
    fn parse_list(
        &self,
        row: &mut [u32; ROW_WORDS],
        below: &mut [u32],
        kind: u32,
        at: usize,
        level: usize,
    ) -> Result<Extent, ReadError>
        requires { RoomBelow below.old }
        ensures { Meets (list_at self.now.text.now (type_at self.now.text.now level) kind at (rows_left below.old)) (row.old ++ below.old) result (row.new ++ below.new) }
    {
        let open = self.expect_token(at, b'(')?;
        let field = self.parse_list_field(below, open, level)?;
        let head = Head { kind, ..PLAIN };
        self.close(row, field.next, field.used, head)
    }

    // FixedSizeList(length x list field), or FixedSizeList(length, type).
    #[cycle(types)]
    #[tactic(auto, using(crate::proofs::Rules::fixed_size_list_steps, crate::proofs::Readers::read_most, crate::proofs::Readers::read_some))]
    fn parse_fixed_size_list(
        &self,
        row: &mut [u32; ROW_WORDS],
        below: &mut [u32],
        kind: u32,
        at: usize,
        level: usize,
    ) -> Result<Extent, ReadError>
        requires { RoomBelow below.old }
        ensures { Meets (fixed_size_list_at self.now.text.now (type_at self.now.text.now level) kind at (rows_left below.old)) (row.old ++ below.old) result (row.new ++ below.new) }
    {
        let open = self.expect_token(at, b'(')?;
        let length = self.parse_length(open)?;
        let head = Head {
            kind,
            number: length.value,
            ..PLAIN
        };
        if let Some(x) = self.next_if_x(length.next) {
            let field = self.parse_list_field(below, x, level)?;
            return self.close(row, field.next, field.used, head);
        }
        let comma = self.expect_token(length.next, b',')?;
        let item = self.parse_next_type(below, comma, level)?;
        put_field(below, NULLABLE, 0, Field::LIST_FIELD);
        self.close(row, item.next, item.used, head)
    }

    #[cycle(types)]
    #[tactic(auto, using(crate::proofs::Rules::dictionary_steps, crate::proofs::Readers::read_most, crate::proofs::Readers::read_some))]
    fn parse_dictionary(
        &self,
        row: &mut [u32; ROW_WORDS],
        below: &mut [u32],
        kind: u32,
        at: usize,
        level: usize,
    ) -> Result<Extent, ReadError>
        requires { RoomBelow below.old }
        ensures { Meets (dictionary_at self.now.text.now (type_at self.now.text.now level) kind at (rows_left below.old)) (row.old ++ below.old) result (row.new ++ below.new) }
    {
        let open = self.expect_token(at, b'(')?;
        let key = self.parse_next_type(below, open, level)?;
        let comma = self.expect_token(key.next, b',')?;
        let behind = &mut below[ROW_WORDS * key.used..];
        let value = self.parse_next_type(behind, comma, level)?;
        let head = Head { kind, ..PLAIN };
        self.close(row, value.next, key.used + value.used, head)
    }

    #[cycle(types)]
    #[tactic(auto, using(crate::proofs::Rules::struct_steps, crate::proofs::Readers::read_most, crate::proofs::Readers::read_some))]
    fn parse_struct(
        &self,
        row: &mut [u32; ROW_WORDS],
        below: &mut [u32],
        kind: u32,
        at: usize,
        level: usize,
    ) -> Result<Extent, ReadError>
        requires { RoomBelow below.old }
        ensures { Meets (struct_at self.now.text.now (type_at self.now.text.now level) kind at (rows_left below.old)) (row.old ++ below.old) result (row.new ++ below.new) }
    {
        let open = self.expect_token(at, b'(')?;
        let head = Head { kind, ..PLAIN };
        let mut next = open;
        let mut used = 0;
        // No range has the places of the fields: each begins where the one before it ended, until a closing mark.
        loop {
            if let Some(end) = self.next_if(next, b')') {
                return Ok(put_row(row, used, head, end));
            }
            let behind = &mut below[ROW_WORDS * used..];
            let field = self.parse_field(behind, 0, next, level)?;
            used += field.used;
            let Some(comma) = self.next_if(field.next, b',') else {
                return self.close(row, field.next, used, head);
            };
            next = comma;
        }
    }

    // Union ids are judged behind the mark that closes the type.
    #[cycle(types)]
    #[tactic(auto, using(crate::proofs::Rules::union_steps, crate::proofs::Readers::read_most, crate::proofs::Readers::read_some))]
    fn parse_union(
        &self,
        row: &mut [u32; ROW_WORDS],
        below: &mut [u32],
        kind: u32,
        at: usize,
        level: usize,
    ) -> Result<Extent, ReadError>
        requires { RoomBelow below.old }
        ensures { Meets (union_at self.now.text.now (type_at self.now.text.now level) kind at (rows_left below.old)) (row.old ++ below.old) result (row.new ++ below.new) }
    {
        let open = self.expect_token(at, b'(')?;
        let mode = self.parse_union_mode(open)?;
        let head = Head {
            kind,
            number: mode.value,
            ..PLAIN
        };
        let mut next = mode.next;
        let mut used = 0;
        // No range has the places of the fields: each begins where the one before it ended, until a closing mark.
        loop {
            if let Some(end) = self.next_if(next, b')') {
                if !unchecked_rows::try_new(&*below, 0, used) {
                    return Err(ReadError {
                        place: mark_before(end),
                        refusal: Refusal::WrongUnionId,
                    });
                }
                return Ok(put_row(row, used, head, end));
            }
            let comma = self.expect_token(next, b',')?;
            let behind = &mut below[ROW_WORDS * used..];
            let field = self.parse_union_field(behind, comma, level)?;
            next = field.next;
            used += field.used;
        }
    }

    // id: ("name": [nullability] type).
    #[cycle(types)]
    #[tactic(auto, using(crate::proofs::Rules::union_field_steps))]
    fn parse_union_field(
        &self,
        rows: &mut [u32],
        at: usize,
        level: usize,
    ) -> Result<Extent, ReadError>
        requires { Room rows.old }
        ensures { Meets (union_field self.now.text.now (type_at self.now.text.now level) at (rows_left rows.old)) rows.old result rows.new }
    {
        let id = self.parse_i8(at)?;
        let colon = self.expect_token(id.next, b':')?;
        let open = self.expect_token(colon, b'(')?;
        let type_id = id.as_union_id();
        let field = self.parse_field(rows, type_id, open, level)?;
        let end = self.expect_token(field.next, b')')?;
        Ok(Extent {
            next: end,
            used: field.used,
        })
    }

    #[cycle(types)]
    #[tactic(auto, using(crate::proofs::Rules::map_steps, crate::proofs::Readers::read_most, crate::proofs::Readers::read_some))]
    fn parse_map(
        &self,
        row: &mut [u32; ROW_WORDS],
        below: &mut [u32],
        kind: u32,
        at: usize,
        level: usize,
    ) -> Result<Extent, ReadError>
        requires { RoomBelow below.old }
        ensures { Meets (map_at self.now.text.now (type_at self.now.text.now level) kind at (rows_left below.old)) (row.old ++ below.old) result (row.new ++ below.new) }
    {
        let open = self.expect_token(at, b'(')?;
        let entries = self.parse_field(below, 0, open, level)?;
        if let Err(refusal) = unchecked_rows::check_entries(&*below, 0) {
            let kind = Row {
                rows: &*below,
                at: 0,
            }
            .kind();
            let place = self.last_token(open, kind, entries.next)?;
            return Err(ReadError { place, refusal });
        }
        let comma = self.expect_token(entries.next, b',')?;
        let sorted = self.parse_map_sorted(comma)?;
        let head = Head {
            kind,
            number: sorted.value,
            ..PLAIN
        };
        self.close(row, sorted.next, entries.used, head)
    }

    // RunEndEncoded of two fields if a whole double-quoted string is next, else of two types.
    #[cycle(types)]
    #[tactic(auto, using(crate::proofs::Rules::run_end_encoded_steps, crate::proofs::Readers::read_fields_most))]
    fn parse_run_end_encoded(
        &self,
        row: &mut [u32; ROW_WORDS],
        below: &mut [u32],
        kind: u32,
        at: usize,
        level: usize,
    ) -> Result<Extent, ReadError>
        requires { RoomBelow below.old }
        ensures { Meets (run_end_encoded_at self.now.text.now (type_at self.now.text.now level) kind at (rows_left below.old)) (row.old ++ below.old) result (row.new ++ below.new) }
    {
        let open = self.expect_token(at, b'(')?;
        let head = Head { kind, ..PLAIN };
        if self.peek_double_quoted(open) {
            let fields = self.ree_fields(below, open, level)?;
            return self.close(row, fields.next, fields.used, head);
        }
        let fields = self.ree_types(below, open, level)?;
        self.close(row, fields.next, fields.used, head)
    }

    // RunEndEncoded's two fields, in the long form.
    #[cycle(types)]
    #[tactic(auto, using(crate::proofs::Rules::ree_fields_steps, crate::proofs::Readers::read_most, crate::proofs::Readers::read_some))]
    fn ree_fields(&self, rows: &mut [u32], at: usize, level: usize) -> Result<Extent, ReadError>
        requires { Room rows.old }
        ensures { MeetsFields (named_run_ends self.now.text.now (type_at self.now.text.now level) at (rows_left rows.old)) rows.old result rows.new }
    {
        let run_ends = self.parse_field(rows, 0, at, level)?;
        let row = Row {
            rows: &*rows,
            at: 0,
        };
        if row.role() != NON_NULL {
            let place = self.last_token(at, row.kind(), run_ends.next)?;
            return Err(ReadError {
                place,
                refusal: Refusal::MustBeNonNull,
            });
        }
        let comma = self.expect_token(run_ends.next, b',')?;
        let behind = &mut rows[ROW_WORDS * run_ends.used..];
        let values = self.parse_field(behind, 0, comma, level)?;
        Ok(Extent {
            next: values.next,
            used: run_ends.used + values.used,
        })
    }

    // RunEndEncoded's fields in the short form: two types, named by the name list.
    #[cycle(types)]
    #[tactic(auto, using(crate::proofs::Rules::ree_types_steps, crate::proofs::Readers::read_most, crate::proofs::Readers::read_some))]
    fn ree_types(&self, rows: &mut [u32], at: usize, level: usize) -> Result<Extent, ReadError>
        requires { Room rows.old }
        ensures { MeetsFields (default_run_ends self.now.text.now (type_at self.now.text.now level) at (rows_left rows.old)) rows.old result rows.new }
    {
        let sure = self.parse_opt_nullable(at);
        if sure.value != NON_NULL {
            return Err(ReadError {
                place: self.role_place(at),
                refusal: Refusal::MustBeNonNull,
            });
        }
        let run_ends = self.parse_next_type(rows, sure.next, level)?;
        put_field(rows, NON_NULL, 0, Field::REE_RUN_ENDS_FIELD);
        let comma = self.expect_token(run_ends.next, b',')?;
        let null = self.parse_opt_nullable(comma);
        let behind = &mut rows[ROW_WORDS * run_ends.used..];
        let values = self.parse_next_type(behind, null.next, level)?;
        put_field(behind, null.value, 0, Field::REE_VALUES_FIELD);
        Ok(Extent {
            next: values.next,
            used: run_ends.used + values.used,
        })
    }
}

// ---- the type that a text begins with

// Reads the type that a text begins with. The rows are left open on a refusal.
#[tactic(auto, using(crate::proofs::Rules::text_steps), unfolding(tokenizer::specs::Edges::edges))]
fn parse_text(text: &[u8], rows: &mut [u32]) -> Result<Extent, ReadError>
    ensures { Meets (first_type text.now (rows_lent (length rows.old))) rows.old result rows.new }
{
    if text.len() > MAX_TEXT {
        return Err(ReadError {
            place: MAX_TEXT,
            refusal: Refusal::TextTooLong,
        });
    }
    if !tokenizer::is_utf8(text) {
        return Err(ReadError {
            place: 0,
            refusal: Refusal::NotUtf8,
        });
    }
    let parser = Parser { text };
    let lent = rows_lent(rows.len());
    parser.parse_next_type(&mut rows[..ROW_WORDS * lent], 0, MAX_LEVELS)
}

// Reads the type that a text begins with into lent rows: the place behind it and how many rows it fills, or the refusal.
// A refusal leaves the rows all zeros.
#[tactic(auto, using(crate::proofs::Rules::first_type_steps))]
pub fn parse_first_type(text: &[u8], rows: &mut [u32]) -> Result<Extent, ReadError>
    ensures answer { read_answer result ≡ read_of (first_type text.now (rows_lent (length rows.old))) }
    ensures contents { rows.new ≡ rows_of rows.old (first_type text.now (rows_lent (length rows.old))) }
{
    let read = parse_text(text, rows);
    if read.is_err() {
        rows.fill(0);
    }
    read
}
