// The counts of the lines so far.
ghost use Rattle.std.specs.Prelude.{◌≡◌, [], ◌∷◌, ◌++◌, ◌+◌, ◌/◌, ◌<◌, ◌≤◌, ◌^◌, List, ℕ, length, drop, nat_le};
ghost use Rattle.datatype.specs.Table.{row_words};
ghost use Rattle.tokenizer.specs.Answer.{answer_of};
ghost use Rattle.writer.specs.Written.{written};
ghost use Rattle.tally.specs.Laws.{CountsOf, IsTally};
ghost use Rattle.tally.specs.Tally.{tally, max_lines, tally_after, add_answer, rows_after, number_of, added, count_line, count_lines, report, report_bytes};
ghost use Rattle.tally.specs.Internal.Steps.{rows_by_kind, Countable};

use crate::NotCounted;
use datatype::Row;
use datatype::rows::{LINE_WORDS, ROW_WORDS};
use datatype_parse::parse_data_type;
use std::marker::Model;
use tokenizer::Numbered;
use unchecked_rows::levels_of;
use writer::Writer;

// So many lines are counted, and no more.
pub const LINES: u32 = 1_000_000;

// The bytes that every report has room in.
pub const REPORT_BYTES: usize = 1_024;

// The numbers that the reader refuses with, 1 to 16, and the kinds, 0 to 40.
const REFUSALS: usize = 16;

const KINDS: usize = 41;

// Lines, accepted lines, refused lines by number, rows of accepted lines by kind, and the deepest level of the accepted lines.
#[derive(Drop)]
pub struct Tally {
    lines: u32,
    ok: u32,
    refused: [u32; REFUSALS],
    kinds: [u32; KINDS],
    deep: u32,
}

impl Model for Tally {
    ghost use Rattle.tally.specs.Tally.{Counts};
    ghost use Rattle.tally.specs.Laws.{IsTally};

    ghost Value = { Counts };

    ghost view = { λ t. record { lines = t.lines; ok = t.ok; refused = t.refused; kinds = t.kinds; deep = t.deep } };

    ghost invariant = { λ t. IsTally (record { lines = t.lines; ok = t.ok; refused = t.refused; kinds = t.kinds; deep = t.deep }) };
}

// Counts the rows of a table by their kinds.
#[tactic(auto, using(crate::proofs::KindCounts::kind_steps))]
fn count_kinds(kinds: &mut [u32; KINDS], rows: &[u32])
    requires { Countable kinds.old rows.now }
    ensures { kinds.new ≡ added kinds.old (rows_by_kind rows.now (length rows.now / row_words)) }
{
    for at in 0..rows.len() / ROW_WORDS {
        let kind = Row { rows, at }.kind() as usize;
        kinds[kind] += 1;
    }
}

// Writes what stands behind a line's word or number: a space, a count and the newline.
#[tactic(auto, using(crate::proofs::Reports::line_steps))]
fn put_rest(writer: &mut Writer<'_>, n: u32)
    ensures { writer.new ≡ written writer.old (count_line [] n) }
{
    writer.put_byte(b' ');
    writer.put_number(n);
    writer.put_byte(b'\n');
}

// Writes a count's line.
#[tactic(auto, using(crate::proofs::Reports::line_steps))]
fn put_line(writer: &mut Writer<'_>, word: &[u8], n: u32)
    ensures { writer.new ≡ written writer.old (count_line word.now n) }
{
    writer.put(word);
    put_rest(writer, n);
}

// Writes the line of a count with a number, if it is not 0.
#[tactic(auto, using(crate::proofs::Reports::number_steps))]
fn put_numbered(writer: &mut Writer<'_>, word: &[u8], number: u32, n: u32)
    ensures { writer.new ≡ written writer.old (count_lines word.now number (n ∷ [])) }
{
    if n == 0 {
        return;
    }
    writer.put(word);
    writer.put_byte(b' ');
    writer.put_number(number);
    put_rest(writer, n);
}

// Writes a line for each count but 0, with its number, which rises from the first on.
#[tactic(auto, using(crate::proofs::Reports::lines_steps))]
fn put_lines(writer: &mut Writer<'_>, word: &[u8], first: u32, counts: &[u32])
    requires { first + length counts.now < 2 ^ 32 }
    ensures { writer.new ≡ written writer.old (count_lines word.now first counts.now) }
{
    let mut number = first;
    for n in counts {
        put_numbered(writer, word, number, *n);
        number += 1;
    }
}

impl Tally {
    // No line is counted yet.
    #[tactic(auto, unfolding(crate::specs::Tally::tally, crate::specs::Tally::each_from))]
    pub fn new() -> Tally
        ensures { result ≡ tally [] }
    {
        Tally {
            lines: 0,
            ok: 0,
            refused: [0; REFUSALS],
            kinds: [0; KINDS],
            deep: 0,
        }
    }

    // Whether so many lines are counted that no more are.
    pub fn is_full(&self) -> bool
        ensures { result ≡ nat_le max_lines self.now.lines }
    {
        self.lines >= LINES
    }

    // Counts one line more, its newline cut off, which is read into the rows lent.
    pub fn add(&mut self, line: &[u8], rows: &mut [u32; LINE_WORDS]) -> Result<(), NotCounted>
        ensures answer { answer_of number_of result ≡ add_answer self.old }
        ensures counts { self.new ≡ tally_after self.old line.now }
        ensures one_more { (ls : List (List ℕ)) → self.old ≡ tally ls → length ls < max_lines
            → self.new ≡ tally (ls ++ line.now ∷ []) }
        ensures contents { rows.new ≡ rows_after self.old line.now rows.old }
    {
        if LINES <= self.lines {
            return Err(NotCounted::TooManyLines);
        }
        match parse_data_type(line, rows) {
            Ok(n) => {
                let tree = &rows[..ROW_WORDS * n];
                count_kinds(&mut self.kinds, tree);
                self.deep = self.deep.max(levels_of(tree) as u32);
                self.ok += 1;
            }
            Err(error) => self.refused[error.refusal.number() as usize - 1] += 1,
        }
        self.lines += 1;
        Ok(())
    }

    // Writes the report.
    fn write_report(&self, writer: &mut Writer<'_>)
        ensures report { writer.new ≡ written writer.old (report self.now) }
        // A caller that reads no field learns nothing of a tally else.
        ensures fits { length (report self.now) ≤ report_bytes }
        ensures counts { IsTally self.now }
    {
        put_line(writer, b"lines", self.lines);
        put_line(writer, b"ok", self.ok);
        put_lines(writer, b"no", 1, &self.refused);
        put_lines(writer, b"kind", 0, &self.kinds);
        put_line(writer, b"deep", self.deep);
    }

    // Writes the report at the start of the output, and gives its length. Past it the output is as it was.
    pub fn put_report(&self, out: &mut [u8; REPORT_BYTES]) -> usize
        ensures answer { result ≡ length (report self.now) }
        ensures bytes { out.new ≡ report self.now ++ drop (length (report self.now)) out.old }
        ensures counts { IsTally self.now }
        ensures laws { (ls : List (List ℕ)) → self.now ≡ tally ls → CountsOf ls self.now }
    {
        let mut writer = Writer { at: 0, out };
        self.write_report(&mut writer);
        writer.at
    }
}
