// Replaying the sample of the row table. A group is a table, another that it is compared with, and cases: a word of the
// first table, the value it is set to, and what is then to be answered.
ghost use Rattle.std.specs.Prelude.{◌≡◌, ◌*◌, ◌/◌, length, get_or, set};
ghost use Rattle.datatype.specs.Table.{row_words};
ghost use Rattle.tokenizer.specs.Answer.{number_of, answer_of};
ghost use Rattle.replay.specs.Sample.{most_words};
ghost use Rattle.replay.specs.TableCase.{table_at, table_case_at, is_verdict, tree_alike, row_alike, change_alike, one_change, changes, group_cases, group_of, one_group};

use crate::counts::counted;
use crate::samples::Sample;
use crate::stored::{after_part, bytes_of, number_at, words_at};
use crate::{Agreement, Answer, MOST_WORDS, Table, TableCase};
use datatype::rows::{HOME, NAME_LENGTH, NAME_START, ROW_WORDS, ZONE_LENGTH, ZONE_START};
use datatype::{Field, Tree};
use tokenizer::{Numbered, Refusal};

// What the cases of a group share: the sample, the table that they change, and the table that it is compared with.
#[derive(Clone, Copy)]
struct Group<'a> {
    sample: &'a [u8],
    table: Table,
    other: Table,
    others: &'a [u32],
}

// What stands before the words of a table.
#[tactic(auto, unfolding(crate::specs::TableCase::table_at))]
fn table_at(sample: &[u8], at: usize) -> Table
    ensures { result ≡ table_at sample.now at }
{
    let text = number_at(sample, at);
    let names = number_at(sample, after_part(sample, text.next, text.value));
    let count = number_at(sample, after_part(sample, names.next, names.value));
    Table {
        text,
        names,
        count: count.value,
        next: count.next,
    }
}

// A case: the word, its value, and the answers.
#[tactic(auto, unfolding(crate::specs::TableCase::table_case_at))]
fn case_at(sample: &[u8], at: usize) -> TableCase
    ensures { result ≡ table_case_at sample.now at }
{
    let place = number_at(sample, at);
    let value = number_at(sample, place.next);
    let sound = number_at(sample, value.next);
    let depth_status = number_at(sample, sound.next);
    let depth = number_at(sample, depth_status.next);
    let verdict_status = number_at(sample, depth.next);
    let verdict = number_at(sample, verdict_status.next);
    let equal = number_at(sample, verdict.next);
    let name = number_at(sample, equal.next);
    let zone = number_at(sample, after_part(sample, name.next, name.value));
    TableCase {
        place: place.value,
        value: value.value,
        sound: sound.value,
        depth: Answer {
            status: depth_status.value,
            value: depth.value,
        },
        verdict: Answer {
            status: verdict_status.value,
            value: verdict.value,
        },
        equal: equal.value,
        name,
        zone,
        next: after_part(sample, zone.next, zone.value),
    }
}

// A word of a table; 0 past its end, so that a row counts that is there in part: no `Row`, which has all its words.
fn word(words: &[u32], place: usize) -> u32
    ensures { result ≡ get_or words.now place 0 }
{
    words.get(place).copied().unwrap_or(0)
}

// Sets a word of a table, unless it is past its end.
fn put(words: &mut [u32], place: usize, value: u32)
    ensures { words.new ≡ set words.old place value }
{
    if place < words.len() {
        words[place] = value;
    }
}

// Whether a verdict is this one: the value is 0 for yes, else the row's number from 1.
#[tactic(auto, unfolding(crate::specs::TableCase::is_verdict, crate::specs::TableCase::verdict_value, arrow_types::specs::Status::status_of))]
fn is_verdict(verdict: Result<Option<usize>, Refusal>, status: u32, value: u32) -> bool
    ensures { result ≡ is_verdict (answer_of number_of verdict) status value }
{
    match verdict {
        Ok(row) => match row {
            None => 0 == status && 0 == value,
            Some(_) if value == 0 => false,
            Some(i) => 0 == status && i == (value - 1) as usize,
        },
        Err(refusal) => refusal.number() == status && 0 == value,
    }
}

// Whether a table is sound or not, and has the depth and the verdict, as a case says.
#[tactic(auto, unfolding(crate::specs::TableCase::tree_alike))]
fn tree_alike(tree: Tree, case: TableCase) -> bool
    ensures { result ≡ tree_alike tree.entry.text.now tree.entry.names.now tree.entry.rows.now case }
{
    if arrow_types::arrow_types_is_sound(tree.text, tree.names, tree.rows) != case.sound {
        return false;
    }
    let mut depth: usize = 0;
    let status = arrow_types::arrow_types_depth(tree.text, tree.names, tree.rows, &mut depth);
    if status != case.depth.status {
        return false;
    }
    let verdict = layout::verdict_of(tree);
    depth == case.depth.value as usize
        && is_verdict(verdict, case.verdict.status, case.verdict.value)
}

// Where the row of a word begins.
fn row_of(place: u32) -> usize
    ensures { result ≡ row_words * (place / row_words) }
{
    ROW_WORDS * (place as usize / ROW_WORDS)
}

// Whether the name and the zone of the row that has the word are as a case says.
#[tactic(auto, unfolding(crate::specs::TableCase::row_alike, datatype::specs::Tree::label_of, datatype::specs::Table::row_of))]
fn row_alike(tree: Tree, place: u32, name: &[u8], zone: &[u8]) -> bool
    ensures { result ≡ row_alike tree.entry.text.now tree.entry.names.now tree.entry.rows.now place name.now zone.now }
{
    let row = row_of(place);
    let field = Field {
        home: word(tree.rows, row + HOME),
        start: word(tree.rows, row + NAME_START),
        size: word(tree.rows, row + NAME_LENGTH),
    };
    let zone_start = word(tree.rows, row + ZONE_START);
    let zone_size = word(tree.rows, row + ZONE_LENGTH);
    datatype::equal_bytes(field.name(tree.text, tree.names), name)
        && datatype::equal_bytes(datatype::zone(tree.text, zone_start, zone_size), zone)
}

// Whether a group's table, changed as a case says, gives all that it says.
#[tactic(auto, unfolding(crate::specs::TableCase::change_alike))]
fn alike(group: Group, words: &[u32], case: TableCase) -> bool
    ensures { result ≡ change_alike group.entry.sample.now group.entry.table words.now group.entry.other group.entry.others.now case }
{
    let tree = Tree {
        text: bytes_of(group.sample, group.table.text),
        names: bytes_of(group.sample, group.table.names),
        rows: words,
    };
    let name = bytes_of(group.sample, case.name);
    let zone = bytes_of(group.sample, case.zone);
    if !tree_alike(tree, case) {
        return false;
    }
    if !row_alike(tree, case.place, name, zone) {
        return false;
    }
    let text2 = bytes_of(group.sample, group.other.text);
    let names2 = bytes_of(group.sample, group.other.names);
    let equal = arrow_types::arrow_types_equal(
        tree.text,
        tree.names,
        words,
        text2,
        names2,
        group.others,
    );
    equal == case.equal
}

// The agreement with the case that stands behind it. The table is left as it was.
#[tactic(auto, using(crate::proofs::Steps::put_back), unfolding(crate::specs::TableCase::one_change))]
fn one_case(group: Group, t: Agreement, words: &mut [u32]) -> Agreement
    ensures agreement { result ≡ one_change group.entry.sample.now group.entry.table words.old group.entry.other group.entry.others.now t }
    ensures words { words.new ≡ words.old }
{
    let case = case_at(group.sample, t.next);
    let place = case.place as usize;
    let old = word(words, place);
    put(words, place, case.value);
    let good = alike(group, words, case);
    put(words, place, old);
    counted(t, good, case.next)
}

// The agreement with so many cases.
#[tactic(auto, using(crate::proofs::Times::times_steps))]
fn cases_of(group: Group, start: Agreement, cases: u32, words: &mut [u32]) -> Agreement
    ensures { result ≡ changes group.entry.sample.now group.entry.table words.old group.entry.other group.entry.others.now cases start }
{
    let mut t = start;
    for _ in 0..cases {
        t = one_case(group, t, words);
    }
    t
}

// The agreement with the cases of two tables, the second of so many words.
#[tactic(auto, unfolding(crate::specs::TableCase::group_cases))]
fn group_cases(
    sample: &[u8],
    t: Agreement,
    table: Table,
    words: &mut [u32],
    other: Table,
    others: &mut [u32],
) -> Agreement
    ensures { result ≡ group_cases sample.now table words.old other (length others.old) t }
{
    let next = words_at(sample, other.next, others);
    let cases = number_at(sample, next);
    let group = Group {
        sample,
        table,
        other,
        others,
    };
    let start = Agreement {
        next: cases.next,
        ..t
    };
    cases_of(group, start, cases.value, words)
}

// The agreement with the group of a table of so many words.
#[tactic(auto, unfolding(crate::specs::TableCase::group_of))]
fn group_of(
    sample: &[u8],
    t: Agreement,
    table: Table,
    words: &mut [u32],
    others: &mut [u32],
) -> Agreement
    ensures { result ≡ group_of sample.now table (length words.old) (length others.old) t }
{
    let next = words_at(sample, table.next, words);
    let other = table_at(sample, next);
    let count = (other.count as usize).min(others.len());
    group_cases(sample, t, table, words, other, &mut others[..count])
}

// The agreement with the group that stands behind it.
#[tactic(auto, unfolding(crate::specs::TableCase::one_group))]
fn one_group(sample: &[u8], t: Agreement, words: &mut [u32], others: &mut [u32]) -> Agreement
    ensures { result ≡ one_group sample.now (length words.old) (length others.old) t }
{
    let table = table_at(sample, t.next);
    let count = (table.count as usize).min(words.len());
    group_of(sample, t, table, &mut words[..count], others)
}

// The groups, with the words of the two tables of one.
#[derive(Drop)]
pub(crate) struct Tables {
    words: [u32; MOST_WORDS],
    others: [u32; MOST_WORDS],
}

impl Tables {
    pub(crate) fn new() -> Tables {
        Tables {
            words: [0; MOST_WORDS],
            others: [0; MOST_WORDS],
        }
    }
}

impl Sample for Tables {
    ghost one_of = { λ sample. one_group sample most_words most_words };

    fn one(&mut self, sample: &[u8], t: Agreement) -> Agreement {
        one_group(sample, t, &mut self.words, &mut self.others)
    }
}
