// The functions that services call from Rust or C, on numbers and slices; `arrow_types_c` exports them. A status is 0 or
// document 01's number. The C interface: numbers for answers and yes, and places to write to, stay in every signature.

#![tactic(auto)]

ghost use Rattle.std.specs.Prelude.{◌≡◌, length};
ghost use Rattle.tokenizer.specs.Answer.{number_of, answer_of};
ghost use Rattle.arrow_types.specs.Status.{status_of, value_of, place_of, flag, yes_of, row_of, if_named};
ghost use Rattle.datatype.specs.Tree.{name_of, zone_of};
ghost use Rattle.unchecked_rows.specs.Parents.{with_parents};
ghost use Rattle.row_table.specs.Sound.{is_sound, depth_of};
ghost use Rattle.unchecked_rows.specs.Equal.{equal_trees};
ghost use Rattle.layout.specs.Layout.{verdict_of};
ghost use Rattle.datatype_parse.specs.Parse.{parse_answer, parse_rows};
ghost use Rattle.datatype_parse.specs.RowsToLend.{rows_to_lend};
ghost use Rattle.datatype_display.specs.Print.{default_spelling, print_answer, print_bytes};
ghost use Rattle.display_length.specs.declared.words.Spelling.TheVariants.{Micro};

mod archived;
mod halved;
mod needed;
mod rewritten;
mod taken;

pub use archived::{arrow_types_from_archive, arrow_types_to_archive};
use datatype::{Field, Tree};
use display_length::Spelling;
pub use halved::{arrow_types_from_half_rows, arrow_types_to_half_rows};
pub use needed::arrow_types_needs;
pub use rewritten::{arrow_types_rewrite, arrow_types_rewrite_micro};
pub use taken::arrow_types_take_column_out;
use tokenizer::{Numbered, Refusal};

// An answer as two numbers: the status, and the value, 0 where it was refused.
#[tactic(auto, unfolding(crate::specs::Status::status_of, crate::specs::Status::value_of))]
fn status(answer: Result<usize, Refusal>, value: &mut usize) -> u32
    ensures status { result ≡ status_of (answer_of number_of answer) }
    ensures value { value.new ≡ value_of (answer_of number_of answer) }
{
    match answer {
        Ok(n) => {
            *value = n;
            0
        }
        Err(refusal) => {
            *value = 0;
            refusal.number()
        }
    }
}

// Reads a type text into lent rows. The place is that of a refusal in the text, 0 where the text is accepted.
#[tactic(auto, unfolding(parser::specs::Answer::refusal_in, crate::specs::Status::status_of, crate::specs::Status::value_of, crate::specs::Status::place_of))]
pub fn arrow_types_read(text: &[u8], rows: &mut [u32], count: &mut usize, place: &mut usize) -> u32
    ensures status { result ≡ status_of (parse_answer text.now rows.old) }
    ensures value { count.new ≡ value_of (parse_answer text.now rows.old) }
    ensures place { place.new ≡ place_of (parse_answer text.now rows.old) }
    ensures contents { rows.new ≡ parse_rows text.now rows.old }
{
    match datatype_parse::parse_data_type(text, rows) {
        Ok(n) => {
            *count = n;
            *place = 0;
            0
        }
        Err(error) => {
            *count = 0;
            *place = error.place;
            error.refusal.number()
        }
    }
}

// How many rows to lend for a text of so many bytes.
pub fn arrow_types_rows_to_lend(bytes: usize) -> usize
    ensures { result ≡ rows_to_lend bytes }
{
    datatype_parse::rows_to_lend(bytes)
}

// Prints a tree into a lent buffer, in the default spelling.
pub fn arrow_types_print<'a>(
    text: &'a [u8],
    names: &'a [u8],
    rows: &[u32],
    out: &mut [u8],
    length: &mut usize,
) -> u32
    ensures status { result ≡ status_of (print_answer default_spelling text.now names.now rows.now out.old) }
    ensures value { length.new ≡ value_of (print_answer default_spelling text.now names.now rows.now out.old) }
    ensures contents { out.new ≡ print_bytes default_spelling text.now names.now rows.now out.old }
{
    let tree = Tree { text, names, rows };
    status(datatype_display::print_data_type(tree, out), length)
}

// Prints a tree into a lent buffer, with microseconds as the Rust spells them.
pub fn arrow_types_print_micro<'a>(
    text: &'a [u8],
    names: &'a [u8],
    rows: &[u32],
    out: &mut [u8],
    length: &mut usize,
) -> u32
    ensures status { result ≡ status_of (print_answer Micro text.now names.now rows.now out.old) }
    ensures value { length.new ≡ value_of (print_answer Micro text.now names.now rows.now out.old) }
    ensures contents { out.new ≡ print_bytes Micro text.now names.now rows.now out.old }
{
    let tree = Tree { text, names, rows };
    status(
        datatype_display::print_data_type_with(Spelling::Micro, tree, out),
        length,
    )
}

// Sets the parent, word 11, of each row that a table holds, up to 1,024: for rows that were built or stored without it.
pub fn arrow_types_set_parents(rows: &mut [u32])
    ensures { rows.new ≡ with_parents rows.old }
{
    unchecked_rows::set_parents(rows);
}

// Where the bytes that were found stand, by home and start: the three numbers, each 0 where none were found.
#[tactic(auto, unfolding(crate::specs::Status::if_named))]
fn place(found: &[u8], home: u32, start: u32, from: &mut usize, count: &mut usize) -> u32
    ensures home { result ≡ if_named found.now home }
    ensures start { from.new ≡ if_named found.now start }
    ensures count { count.new ≡ length found.now }
{
    *count = found.len();
    if found.is_empty() {
        *from = 0;
        return 0;
    }
    *from = start as usize;
    home
}

// Where a field's name stands, by words 6, 7 and 8 of its row: the home, 1 the text or 2 the name list, with start and
// count of its bytes there. The three are 0 where the name is empty, as it is where the words do not fit.
#[tactic(auto, using(crate::proofs::Named::name_back))]
pub fn arrow_types_name<'a>(
    text: &'a [u8],
    names: &'a [u8],
    home: u32,
    start: u32,
    size: u32,
    from: &mut usize,
    count: &mut usize,
) -> u32
    ensures home { result ≡ if_named (name_of text.now names.now home start size) home }
    ensures start { from.new ≡ if_named (name_of text.now names.now home start size) start }
    ensures count { count.new ≡ length (name_of text.now names.now home start size) }
    ensures bytes { name_of text.now names.now result from.new count.new ≡ name_of text.now names.now home start size }
{
    let field = Field { home, start, size };
    place(field.name(text, names), home, start, from, count)
}

// Where a zone stands, by words 9 and 10 of its row: 1, with start and count of its bytes in the text. The three are 0
// where the zone is empty, as it is where the words do not fit.
#[tactic(auto, using(crate::proofs::Named::zone_back))]
pub fn arrow_types_zone(
    text: &[u8],
    start: u32,
    size: u32,
    at: &mut usize,
    count: &mut usize,
) -> u32
    ensures found { result ≡ if_named (zone_of text.now start size) 1 }
    ensures start { at.new ≡ if_named (zone_of text.now start size) start }
    ensures count { count.new ≡ length (zone_of text.now start size) }
    ensures bytes { zone_of text.now at.new count.new ≡ zone_of text.now start size }
{
    place(datatype::zone(text, start, size), 1, start, at, count)
}

// Whether text, name list and row words are a sound tree: 1 or 0.
#[tactic(auto, unfolding(crate::specs::Status::flag))]
pub fn arrow_types_is_sound(text: &[u8], names: &[u8], rows: &[u32]) -> u32
    ensures { result ≡ flag (is_sound text.now names.now rows.now) }
{
    let tree = Tree { text, names, rows };
    u32::from(row_table::is_sound(tree))
}

// The depth of a tree.
pub fn arrow_types_depth(text: &[u8], names: &[u8], rows: &[u32], depth: &mut usize) -> u32
    ensures status { result ≡ status_of (depth_of text.now names.now rows.now) }
    ensures value { depth.new ≡ value_of (depth_of text.now names.now rows.now) }
{
    let tree = Tree { text, names, rows };
    status(row_table::depth_of(tree), depth)
}

// Whether two trees, each with its text, its name list and its row words, are equal: 1 or 0.
#[tactic(auto, unfolding(crate::specs::Status::flag))]
pub fn arrow_types_equal<'a, 'b>(
    text: &'a [u8],
    names: &'a [u8],
    rows: &[u32],
    text2: &'b [u8],
    names2: &'b [u8],
    rows2: &[u32],
) -> u32
    ensures { result ≡ flag (equal_trees text.now names.now text2.now names2.now rows.now rows2.now) }
{
    let one = Tree { text, names, rows };
    let other = Tree {
        text: text2,
        names: names2,
        rows: rows2,
    };
    u32::from(unchecked_rows::equal_trees(one, other))
}

// The layout verdict of a tree: whether it is yes, 1 or 0, and the first row that breaks a rule, where it is not.
#[tactic(auto, unfolding(crate::specs::Status::status_of, crate::specs::Status::yes_of, crate::specs::Status::row_of))]
pub fn arrow_types_verdict(
    text: &[u8],
    names: &[u8],
    rows: &[u32],
    yes: &mut u32,
    row: &mut usize,
) -> u32
    ensures status { result ≡ status_of (verdict_of text.now names.now rows.now) }
    ensures yes { yes.new ≡ yes_of (verdict_of text.now names.now rows.now) }
    ensures row { row.new ≡ row_of (verdict_of text.now names.now rows.now) }
{
    *yes = 0;
    *row = 0;
    match layout::verdict_of(Tree { text, names, rows }) {
        Ok(None) => {
            *yes = 1;
            0
        }
        Ok(Some(i)) => {
            *row = i;
            0
        }
        Err(refusal) => refusal.number(),
    }
}
