// Replaying the sample of the reader.
ghost use Rattle.std.specs.Prelude.{◌≡◌, ℕ, true, false, min, length};
ghost use Rattle.replay.specs.Sample.{most_words};
ghost use Rattle.replay.specs.ReadCase.{read_case_at, words_lent, rest_of, left_words, after_case, one_case, read_one};
ghost use Rattle.replay.specs.ReadCase.{gives as gives_of};

use crate::counts::counted;
use crate::samples::Sample;
use crate::stored::{after_part, number_at, part_at, words_at};
use crate::{Agreement, MOST_WORDS, ReadCase, UNTOUCHED};
use datatype::rows::ROW_WORDS;

// What stands before the rows' words of a case.
#[tactic(auto, unfolding(crate::specs::ReadCase::read_case_at))]
fn case_at(sample: &[u8], at: usize) -> ReadCase
    ensures { result ≡ read_case_at sample.now at }
{
    let lent = number_at(sample, at);
    let size = number_at(sample, lent.next);
    let status = number_at(sample, after_part(sample, size.next, size.value));
    let value = number_at(sample, status.next);
    let place = number_at(sample, value.next);
    ReadCase {
        lent: lent.value,
        at: size.next,
        size: size.value,
        status: status.value,
        value: value.value,
        place: place.value,
        next: place.next,
    }
}

// How many words a case is lent.
pub(crate) trait Lending: Drop {
    ghost use Rattle.replay.specs.declared.ReadCase.{ReadCase};

    ghost lent: { ReadCase → ℕ };

    fn words(&self, case: ReadCase) -> usize
        ensures { result ≡ lent case };
}

// Those that are stored with it.
#[derive(Drop)]
pub(crate) struct Stored;

impl Lending for Stored {
    ghost lent = { words_lent false };

    #[tactic(auto, unfolding(crate::specs::ReadCase::words_lent))]
    fn words(&self, case: ReadCase) -> usize {
        case.lent as usize
    }
}

// Those of its rows to lend where it is accepted, else those that are stored with it.
#[derive(Drop)]
pub(crate) struct RowsToLend;

impl Lending for RowsToLend {
    ghost lent = { words_lent true };

    #[tactic(auto, using(datatype_parse::proofs::RowsToLend::most_to_lend), unfolding(crate::specs::ReadCase::words_lent))]
    fn words(&self, case: ReadCase) -> usize {
        if case.status == 0 {
            ROW_WORDS * arrow_types::arrow_types_rows_to_lend(case.size as usize)
        } else {
            case.lent as usize
        }
    }
}

// What the words behind the rows are to hold.
fn rest(status: u32) -> u32
    ensures { result ≡ rest_of status }
{
    if status == 0 { UNTOUCHED } else { 0 }
}

// Fills words with those that the reader is to leave: the place behind those of them that are stored.
#[tactic(auto, unfolding(crate::specs::ReadCase::left_words, crate::specs::ReadCase::after_case))]
pub(crate) fn left_words(sample: &[u8], case: ReadCase, left: &mut [u32]) -> usize
    ensures place { result ≡ after_case sample.now case (length left.old) }
    ensures words { left.new ≡ left_words sample.now case (length left.old) }
{
    left.fill(rest(case.status));
    let n = (ROW_WORDS * (case.value as usize)).min(left.len());
    words_at(sample, case.next, &mut left[..n])
}

// Whether the reader gives a text the status, the value and the place of a case, and leaves these words of those lent.
#[tactic(auto, unfolding(crate::specs::ReadCase::gives))]
fn gives(text: &[u8], case: ReadCase, left: &[u32], rows: &mut [u32]) -> bool
    ensures { result ≡ gives_of text.now (length rows.old) case.status case.value case.place left.now }
{
    rows.fill(UNTOUCHED);
    let mut count: usize = 0;
    let mut place: usize = 0;
    let status = arrow_types::arrow_types_read(text, rows, &mut count, &mut place);
    if status != case.status || count != case.value as usize {
        return false;
    }
    place == case.place as usize && datatype::equal_words(rows, left)
}

// The agreement with one case more.
#[tactic(auto, unfolding(crate::specs::ReadCase::one_case))]
fn one_case(
    sample: &[u8],
    t: Agreement,
    case: ReadCase,
    rows: &mut [u32],
    left: &mut [u32],
) -> Agreement
    ensures { result ≡ one_case sample.now t case (length rows.old) (length left.old) }
{
    let next = left_words(sample, case, left);
    let text = part_at(sample, case.at, case.size);
    let alike = gives(text, case, left, rows);
    counted(t, alike, next)
}

// The agreement with the case that stands behind it.
#[tactic(auto, unfolding(crate::specs::ReadCase::read_one))]
fn read_one<L: Lending>(
    sample: &[u8],
    lending: &L,
    t: Agreement,
    rows: &mut [u32],
    left: &mut [u32],
) -> Agreement
    ensures { result ≡ read_one sample.now L.lent (min (length rows.old) (length left.old)) t }
{
    let case = case_at(sample, t.next);
    let most = rows.len().min(left.len());
    let lent = lending.words(case).min(most);
    one_case(sample, t, case, &mut rows[..lent], &mut left[..lent])
}

// The texts, with how many words each is lent, and with the words lent and those that are to be left.
#[derive(Drop)]
pub(crate) struct Texts<L> {
    lending: L,
    rows: [u32; MOST_WORDS],
    left: [u32; MOST_WORDS],
}

impl<L> Texts<L> {
    pub(crate) fn new(lending: L) -> Texts<L> {
        Texts {
            lending,
            rows: [0; MOST_WORDS],
            left: [0; MOST_WORDS],
        }
    }
}

impl<L: Lending> Sample for Texts<L> {
    ghost one_of = { λ sample. read_one sample L.lent most_words };

    fn one(&mut self, sample: &[u8], t: Agreement) -> Agreement {
        read_one(sample, &self.lending, t, &mut self.rows, &mut self.left)
    }
}
