// The functions that services link, under their names for C: each is that of `arrow_types`, by the same contract. The C
// interface: numbers for answers and yes, and places to write to, stay in every signature.

#![tactic(auto)]

ghost use Rattle.std.specs.Prelude.{◌≡◌, length};
ghost use Rattle.arrow_types.specs.Status.{status_of, value_of, place_of, flag, yes_of, row_of, unmet_of, if_named};
ghost use Rattle.datatype.specs.Tree.{name_of, zone_of};
ghost use Rattle.unchecked_rows.specs.Parents.{with_parents};
ghost use Rattle.row_table.specs.Sound.{is_sound, depth_of};
ghost use Rattle.unchecked_rows.specs.Equal.{equal_trees};
ghost use Rattle.layout.specs.Layout.{verdict_of};
ghost use Rattle.needs.specs.Needs.{needs_of};
ghost use Rattle.packing.specs.Packed.{rows_answered, bytes_answered};
ghost use Rattle.column_out.specs.ColumnOut.{column_out_answer, column_out_rows, column_out_bytes};
ghost use Rattle.archive.specs.Archive.{archive_answer, archive_bytes, unarchive_answer, unarchive_rows, unarchive_text};
ghost use Rattle.half_rows.specs.HalfRows.{half_rows_answer, half_rows_words, wide_rows_answer, wide_rows_words};
ghost use Rattle.datatype_parse.specs.Parse.{parse_answer, parse_rows};
ghost use Rattle.datatype_parse.specs.RowsToLend.{rows_to_lend};
ghost use Rattle.datatype_display.specs.Print.{default_spelling, print_answer, print_bytes};
ghost use Rattle.display_length.specs.declared.words.Spelling.TheVariants.{Micro};
ghost use Rattle.rewrite.specs.Rewrite.{rewrite_answer, rewrite_bytes, rewrite_back};
ghost use Rattle.arrow_types.specs.Step.{told, told_of};

use needs::Need;

// Reads a type text into lent rows. The place is that of a refusal in the text, 0 where the text is accepted.
#[unsafe(no_mangle)]
pub extern "C" fn arrow_types_read(
    text: &[u8],
    rows: &mut [u32],
    count: &mut usize,
    place: &mut usize,
) -> u32
    ensures status { result ≡ status_of (parse_answer text.now rows.old) }
    ensures value { count.new ≡ value_of (parse_answer text.now rows.old) }
    ensures place { place.new ≡ place_of (parse_answer text.now rows.old) }
    ensures contents { rows.new ≡ parse_rows text.now rows.old }
{
    arrow_types::arrow_types_read(text, rows, count, place)
}

// How many rows to lend for a text of so many bytes.
#[unsafe(no_mangle)]
pub extern "C" fn arrow_types_rows_to_lend(bytes: usize) -> usize
    ensures { result ≡ rows_to_lend bytes }
{
    arrow_types::arrow_types_rows_to_lend(bytes)
}

// Prints a tree into a lent buffer, in the default spelling.
#[unsafe(no_mangle)]
pub extern "C" fn arrow_types_print<'a>(
    text: &'a [u8],
    names: &'a [u8],
    rows: &[u32],
    out: &mut [u8],
    length: &mut usize,
) -> u32
    ensures status { result ≡ status_of (print_answer default_spelling text.now names.now rows.now out.old) }
    ensures value { length.new ≡ value_of (print_answer default_spelling text.now names.now rows.now out.old) }
    ensures contents { out.new ≡ print_bytes default_spelling text.now names.now rows.now out.old }
{
    arrow_types::arrow_types_print(text, names, rows, out, length)
}

// Prints a tree into a lent buffer, with microseconds as the Rust spells them.
#[unsafe(no_mangle)]
pub extern "C" fn arrow_types_print_micro<'a>(
    text: &'a [u8],
    names: &'a [u8],
    rows: &[u32],
    out: &mut [u8],
    length: &mut usize,
) -> u32
    ensures status { result ≡ status_of (print_answer Micro text.now names.now rows.now out.old) }
    ensures value { length.new ≡ value_of (print_answer Micro text.now names.now rows.now out.old) }
    ensures contents { out.new ≡ print_bytes Micro text.now names.now rows.now out.old }
{
    arrow_types::arrow_types_print_micro(text, names, rows, out, length)
}

// Rewrites a type text in the default spelling: reads it, prints it, reads back what was printed and compares the two
// trees. The result is the step that refused, 0 for none: 1 reading, 2 printing, 3 reading back, 4 comparing.
#[unsafe(no_mangle)]
pub extern "C" fn arrow_types_rewrite(
    text: &[u8],
    rows: &mut [u32],
    out: &mut [u8],
    back: &mut [u32],
    length: &mut usize,
    count: &mut usize,
    number: &mut u32,
    place: &mut usize,
) -> u32
    ensures told { told result length.new count.new number.new place.new ≡ told_of (rewrite_answer default_spelling text.now rows.old out.old back.old) }
    ensures contents { rows.new ≡ parse_rows text.now rows.old }
    ensures bytes { out.new ≡ rewrite_bytes default_spelling text.now rows.old out.old back.old }
    ensures again { back.new ≡ rewrite_back default_spelling text.now rows.old out.old back.old }
{
    arrow_types::arrow_types_rewrite(text, rows, out, back, length, count, number, place)
}

// Rewrites a type text, with microseconds as the Rust spells them.
#[unsafe(no_mangle)]
pub extern "C" fn arrow_types_rewrite_micro(
    text: &[u8],
    rows: &mut [u32],
    out: &mut [u8],
    back: &mut [u32],
    length: &mut usize,
    count: &mut usize,
    number: &mut u32,
    place: &mut usize,
) -> u32
    ensures told { told result length.new count.new number.new place.new ≡ told_of (rewrite_answer Micro text.now rows.old out.old back.old) }
    ensures contents { rows.new ≡ parse_rows text.now rows.old }
    ensures bytes { out.new ≡ rewrite_bytes Micro text.now rows.old out.old back.old }
    ensures again { back.new ≡ rewrite_back Micro text.now rows.old out.old back.old }
{
    arrow_types::arrow_types_rewrite_micro(text, rows, out, back, length, count, number, place)
}

// Sets the parent, word 11, of each row that a table holds, up to 1,024: for rows that were built or stored without it.
#[unsafe(no_mangle)]
pub extern "C" fn arrow_types_set_parents(rows: &mut [u32])
    ensures { rows.new ≡ with_parents rows.old }
{
    arrow_types::arrow_types_set_parents(rows);
}

// Where a field's name stands, by words 6, 7 and 8 of its row: the home, 1 the text or 2 the name list, with start and
// count of its bytes there. The three are 0 where the name is empty, as it is where the words do not fit.
#[unsafe(no_mangle)]
pub extern "C" fn arrow_types_name<'a>(
    text: &'a [u8],
    names: &'a [u8],
    home: u32,
    start: u32,
    size: u32,
    from: &mut usize,
    count: &mut usize,
) -> u32
    ensures home { result ≡ if_named (name_of text.now names.now home start size) home }
    ensures start { from.new ≡ if_named (name_of text.now names.now home start size) start }
    ensures count { count.new ≡ length (name_of text.now names.now home start size) }
    ensures bytes { name_of text.now names.now result from.new count.new ≡ name_of text.now names.now home start size }
{
    arrow_types::arrow_types_name(text, names, home, start, size, from, count)
}

// Where a zone stands, by words 9 and 10 of its row: 1, with start and count of its bytes in the text. The three are 0
// where the zone is empty, as it is where the words do not fit.
#[unsafe(no_mangle)]
pub extern "C" fn arrow_types_zone(
    text: &[u8],
    start: u32,
    size: u32,
    at: &mut usize,
    count: &mut usize,
) -> u32
    ensures found { result ≡ if_named (zone_of text.now start size) 1 }
    ensures start { at.new ≡ if_named (zone_of text.now start size) start }
    ensures count { count.new ≡ length (zone_of text.now start size) }
    ensures bytes { zone_of text.now at.new count.new ≡ zone_of text.now start size }
{
    arrow_types::arrow_types_zone(text, start, size, at, count)
}

// Whether text, name list and row words are a sound tree: 1 or 0.
#[unsafe(no_mangle)]
pub extern "C" fn arrow_types_is_sound(text: &[u8], names: &[u8], rows: &[u32]) -> u32
    ensures { result ≡ flag (is_sound text.now names.now rows.now) }
{
    arrow_types::arrow_types_is_sound(text, names, rows)
}

// The depth of a tree.
#[unsafe(no_mangle)]
pub extern "C" fn arrow_types_depth(
    text: &[u8],
    names: &[u8],
    rows: &[u32],
    depth: &mut usize,
) -> u32
    ensures status { result ≡ status_of (depth_of text.now names.now rows.now) }
    ensures value { depth.new ≡ value_of (depth_of text.now names.now rows.now) }
{
    arrow_types::arrow_types_depth(text, names, rows, depth)
}

// Whether two trees, each with its text, its name list and its row words, are equal: 1 or 0.
#[unsafe(no_mangle)]
pub extern "C" fn arrow_types_equal<'a, 'b>(
    text: &'a [u8],
    names: &'a [u8],
    rows: &[u32],
    text2: &'b [u8],
    names2: &'b [u8],
    rows2: &[u32],
) -> u32
    ensures { result ≡ flag (equal_trees text.now names.now text2.now names2.now rows.now rows2.now) }
{
    arrow_types::arrow_types_equal(text, names, rows, text2, names2, rows2)
}

// The layout verdict of a tree: whether it is yes, 1 or 0, and the first row that breaks a rule, where it is not.
#[unsafe(no_mangle)]
pub extern "C" fn arrow_types_verdict(
    text: &[u8],
    names: &[u8],
    rows: &[u32],
    yes: &mut u32,
    row: &mut usize,
) -> u32
    ensures status { result ≡ status_of (verdict_of text.now names.now rows.now) }
    ensures yes { yes.new ≡ yes_of (verdict_of text.now names.now rows.now) }
    ensures row { row.new ≡ row_of (verdict_of text.now names.now rows.now) }
{
    arrow_types::arrow_types_verdict(text, names, rows, yes, row)
}

// Whether a tree has the columns that are needed: whether it is yes, 1 or 0, and the first need that is not met, where it is
// not. Each need has its name in the text of needs.
#[unsafe(no_mangle)]
pub extern "C" fn arrow_types_needs(
    text: &[u8],
    names: &[u8],
    rows: &[u32],
    needs_text: &[u8],
    needs: &[Need],
    yes: &mut u32,
    need: &mut usize,
) -> u32
    ensures status { result ≡ status_of (needs_of text.now names.now rows.now needs_text.now needs.now) }
    ensures yes { yes.new ≡ yes_of (needs_of text.now names.now rows.now needs_text.now needs.now) }
    ensures need { need.new ≡ unmet_of (needs_of text.now names.now rows.now needs_text.now needs.now) }
{
    arrow_types::arrow_types_needs(text, names, rows, needs_text, needs, yes, need)
}

// Takes a field, counted from 0, out of a tree whose root is a Struct: what stays stands in lent rows, over a lent text.
#[unsafe(no_mangle)]
pub extern "C" fn arrow_types_take_column_out<'a>(
    text: &'a [u8],
    names: &'a [u8],
    rows: &[u32],
    field: usize,
    rows_left: &mut [u32],
    text_left: &mut [u8],
    count: &mut usize,
    length: &mut usize,
) -> u32
    ensures status { result ≡ status_of (column_out_answer text.now names.now rows.now field rows_left.old text_left.old) }
    ensures count { count.new ≡ rows_answered (column_out_answer text.now names.now rows.now field rows_left.old text_left.old) }
    ensures length { length.new ≡ bytes_answered (column_out_answer text.now names.now rows.now field rows_left.old text_left.old) }
    ensures contents { rows_left.new ≡ column_out_rows text.now names.now rows.now field rows_left.old text_left.old }
    ensures bytes { text_left.new ≡ column_out_bytes text.now names.now rows.now field rows_left.old text_left.old }
{
    arrow_types::arrow_types_take_column_out(
        text, names, rows, field, rows_left, text_left, count, length,
    )
}

// Writes a tree's image, the bytes of its archive record, into a lent buffer.
#[unsafe(no_mangle)]
pub extern "C" fn arrow_types_to_archive<'a>(
    text: &'a [u8],
    names: &'a [u8],
    rows: &[u32],
    out: &mut [u8],
    length: &mut usize,
) -> u32
    ensures status { result ≡ status_of (archive_answer text.now names.now rows.now out.old) }
    ensures value { length.new ≡ value_of (archive_answer text.now names.now rows.now out.old) }
    ensures bytes { out.new ≡ archive_bytes text.now names.now rows.now out.old }
{
    arrow_types::arrow_types_to_archive(text, names, rows, out, length)
}

// Reads an image into lent rows, over a lent text.
#[unsafe(no_mangle)]
pub extern "C" fn arrow_types_from_archive(
    image: &[u8],
    rows: &mut [u32],
    text: &mut [u8],
    count: &mut usize,
    length: &mut usize,
) -> u32
    ensures status { result ≡ status_of (unarchive_answer image.now rows.old text.old) }
    ensures count { count.new ≡ rows_answered (unarchive_answer image.now rows.old text.old) }
    ensures length { length.new ≡ bytes_answered (unarchive_answer image.now rows.old text.old) }
    ensures contents { rows.new ≡ unarchive_rows image.now rows.old text.old }
    ensures bytes { text.new ≡ unarchive_text image.now rows.old text.old }
{
    arrow_types::arrow_types_from_archive(image, rows, text, count, length)
}

// Keeps a sound tree's rows in halves.
#[unsafe(no_mangle)]
pub extern "C" fn arrow_types_to_half_rows(
    text: &[u8],
    names: &[u8],
    rows: &[u32],
    halves: &mut [u16],
    count: &mut usize,
) -> u32
    ensures status { result ≡ status_of (half_rows_answer text.now names.now rows.now halves.old) }
    ensures count { count.new ≡ value_of (half_rows_answer text.now names.now rows.now halves.old) }
    ensures contents { halves.new ≡ half_rows_words text.now names.now rows.now halves.old }
{
    arrow_types::arrow_types_to_half_rows(text, names, rows, halves, count)
}

// Brings rows in halves back.
#[unsafe(no_mangle)]
pub extern "C" fn arrow_types_from_half_rows(
    text: &[u8],
    names: &[u8],
    halves: &[u16],
    rows: &mut [u32],
    count: &mut usize,
) -> u32
    ensures status { result ≡ status_of (wide_rows_answer text.now names.now halves.now rows.old) }
    ensures count { count.new ≡ value_of (wide_rows_answer text.now names.now halves.now rows.old) }
    ensures contents { rows.new ≡ wide_rows_words text.now names.now halves.now rows.old }
{
    arrow_types::arrow_types_from_half_rows(text, names, halves, rows, count)
}
