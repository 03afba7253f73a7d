// Replaying the sample of rows in halves: half words are brought back, and a tree that comes is kept again.
ghost use Rattle.std.specs.Prelude.{◌≡◌, min, length};
ghost use Rattle.tokenizer.specs.Text.{same};
ghost use Rattle.replay.specs.Sample.{most_words, most_halves, after_numbers};
ghost use Rattle.replay.specs.HalfCase.{half_case_at, half_of, halves_at, rows_left, after_rows, gives_rows, gives_halves, halves_alike, one_half_case, half_one};

use crate::counts::counted;
use crate::samples::Sample;
use crate::stored::{after_part, bytes_of, number_at, words_at};
use crate::{Agreement, HalfCase, MOST_HALVES, MOST_WORDS, UNTOUCHED};
use datatype::rows::ROW_WORDS;

// The most that a half word holds.
const MOST_HALF: u32 = 65_535;

// What stands before the half words of a case.
#[tactic(auto, unfolding(crate::specs::HalfCase::half_case_at))]
fn case_at(sample: &[u8], at: usize) -> HalfCase
    ensures { result ≡ half_case_at sample.now at }
{
    let text = number_at(sample, at);
    let names = number_at(sample, after_part(sample, text.next, text.value));
    let lent = number_at(sample, after_part(sample, names.next, names.value));
    let status = number_at(sample, lent.next);
    let value = number_at(sample, status.next);
    let count = number_at(sample, value.next);
    HalfCase {
        text,
        names,
        lent: lent.value,
        status: status.value,
        value: value.value,
        count: count.value,
        next: count.next,
    }
}

// A number as a half word: no more than 16 bits hold.
fn half(value: u32) -> u16
    ensures { result ≡ half_of value }
{
    value.min(MOST_HALF) as u16
}

// Fills half words with the numbers from a place on: the place behind them.
#[tactic(auto, using(crate::proofs::Reading::halves_steps))]
fn halves_at(sample: &[u8], at: usize, out: &mut [u16]) -> usize
    ensures place { result ≡ after_numbers sample.now (length out.old) at }
    ensures halves { out.new ≡ halves_at sample.now (length out.old) at }
{
    let mut next = at;
    for place in out.iter_mut() {
        let n = number_at(sample, next);
        *place = half(n.value);
        next = n.next;
    }
    next
}

// Fills words with those that so many rows are to leave: the place behind those of them that are stored.
#[tactic(auto, unfolding(crate::specs::HalfCase::rows_left, crate::specs::HalfCase::after_rows))]
fn rows_left(sample: &[u8], count: u32, at: usize, left: &mut [u32]) -> usize
    ensures place { result ≡ after_rows sample.now count at (length left.old) }
    ensures words { left.new ≡ rows_left sample.now count at (length left.old) }
{
    left.fill(UNTOUCHED);
    let n = (ROW_WORDS * (count as usize)).min(left.len());
    words_at(sample, at, &mut left[..n])
}

// Whether two slices of half words are the same, as `datatype::equal_words` says of words.
#[tactic(auto, using(datatype::proofs::Same::pointwise_same))]
fn equal_halves(a: &[u16], b: &[u16]) -> bool
    ensures { result ≡ same a.now b.now }
{
    a == b
}

// Whether half words give the status and the row count of a case, and leave these words of those lent.
#[tactic(auto, unfolding(crate::specs::HalfCase::gives_rows))]
fn gives_rows(
    text: &[u8],
    names: &[u8],
    halves: &[u16],
    case: HalfCase,
    left: &[u32],
    rows: &mut [u32],
) -> bool
    ensures { result ≡ gives_rows text.now names.now halves.now (length rows.old) case.status case.value left.now }
{
    rows.fill(UNTOUCHED);
    let mut count: usize = 0;
    let status = arrow_types::arrow_types_from_half_rows(text, names, halves, rows, &mut count);
    if status != case.status || count != case.value as usize {
        return false;
    }
    datatype::equal_words(rows, left)
}

// Whether a tree of these rows is kept in these half words, as many as are lent.
#[tactic(auto, unfolding(crate::specs::HalfCase::gives_halves))]
fn gives_halves(text: &[u8], names: &[u8], rows: &[u32], halves: &[u16], out: &mut [u16]) -> bool
    requires { length out.old ≡ length halves.now }
    ensures { result ≡ gives_halves text.now names.now rows.now halves.now }
{
    out.fill(UNTOUCHED as u16);
    let mut count: usize = 0;
    let status = arrow_types::arrow_types_to_half_rows(text, names, rows, out, &mut count);
    status == 0 && equal_halves(out, halves)
}

// Whether half words give what a case says, these words among it, and are kept again where they are accepted.
#[tactic(auto, unfolding(crate::specs::HalfCase::halves_alike))]
fn alike(
    sample: &[u8],
    case: HalfCase,
    halves: &[u16],
    left: &[u32],
    rows: &mut [u32],
    out: &mut [u16],
) -> bool
    requires { length out.old ≡ length halves.now }
    ensures { result ≡ halves_alike sample.now case halves.now left.now (length rows.old) }
{
    let text = bytes_of(sample, case.text);
    let names = bytes_of(sample, case.names);
    if !gives_rows(text, names, halves, case, left, rows) {
        return false;
    }
    let n = (ROW_WORDS * (case.value as usize)).min(left.len());
    case.status != 0 || gives_halves(text, names, &left[..n], halves, out)
}

// The agreement with one case more.
#[tactic(auto, unfolding(crate::specs::HalfCase::one_half_case))]
fn one_case(
    sample: &[u8],
    t: Agreement,
    case: HalfCase,
    halves: &mut [u16],
    out: &mut [u16],
    rows: &mut [u32],
    left: &mut [u32],
) -> Agreement
    requires { length out.old ≡ length halves.old }
    ensures { result ≡ one_half_case sample.now t case (length halves.old) (length rows.old) (length left.old) }
{
    let at = halves_at(sample, case.next, halves);
    let next = rows_left(sample, case.value, at, left);
    let alike = alike(sample, case, halves, left, rows, out);
    counted(t, alike, next)
}

// The agreement with the case that stands behind it.
#[tactic(auto, unfolding(crate::specs::HalfCase::half_one))]
fn half_one(
    sample: &[u8],
    t: Agreement,
    halves: &mut [u16],
    out: &mut [u16],
    rows: &mut [u32],
    left: &mut [u32],
) -> Agreement
    ensures { result ≡ half_one sample.now (min (length halves.old) (length out.old)) (min (length rows.old) (length left.old)) t }
{
    let case = case_at(sample, t.next);
    let most = halves.len().min(out.len());
    let words = rows.len().min(left.len());
    let count = (case.count as usize).min(most);
    let lent = (case.lent as usize).min(words);
    one_case(
        sample,
        t,
        case,
        &mut halves[..count],
        &mut out[..count],
        &mut rows[..lent],
        &mut left[..lent],
    )
}

// The rows in halves, with the half words of a case and those that its tree is kept in, and with the words lent and those that are
// to be left.
#[derive(Drop)]
pub(crate) struct Halves {
    halves: [u16; MOST_HALVES],
    out: [u16; MOST_HALVES],
    rows: [u32; MOST_WORDS],
    left: [u32; MOST_WORDS],
}

impl Halves {
    pub(crate) fn new() -> Halves {
        Halves {
            halves: [0; MOST_HALVES],
            out: [0; MOST_HALVES],
            rows: [0; MOST_WORDS],
            left: [0; MOST_WORDS],
        }
    }
}

impl Sample for Halves {
    ghost one_of = { λ sample. half_one sample most_halves most_words };

    fn one(&mut self, sample: &[u8], t: Agreement) -> Agreement {
        half_one(
            sample,
            t,
            &mut self.halves,
            &mut self.out,
            &mut self.rows,
            &mut self.left,
        )
    }
}
