// Replaying the samples of the printer.
ghost use Rattle.std.specs.Prelude.{◌≡◌, length, nat_eq};
ghost use Rattle.tokenizer.specs.Text.{all};
ghost use Rattle.tokenizer.specs.Answer.{number_of, answer_of};
ghost use Rattle.replay.specs.Sample.{most_words, most_bytes};
ghost use Rattle.replay.specs.PrintCase.{print_case_at, is_answer, leaves_bytes, gives_print, one_print, print_one};

use crate::counts::counted;
use crate::samples::Sample;
use crate::stored::{after_part, bytes_of, number_at, part_at, rest_at, words_at};
use crate::{Agreement, MOST_BYTES, MOST_WORDS, PrintCase, UNTOUCHED};
use datatype::Tree;
use display_length::Spelling;
use tokenizer::{Numbered, Refusal};

// What stands before the rows' words of a case.
#[tactic(auto, unfolding(crate::specs::PrintCase::print_case_at))]
fn case_at(sample: &[u8], at: usize) -> PrintCase
    ensures { result ≡ print_case_at sample.now at }
{
    let lent = number_at(sample, at);
    let text = number_at(sample, lent.next);
    let names = number_at(sample, after_part(sample, text.next, text.value));
    let status = number_at(sample, after_part(sample, names.next, names.value));
    let printed = number_at(sample, status.next);
    let count = number_at(sample, after_part(sample, printed.next, printed.value));
    PrintCase {
        lent: lent.value,
        text,
        names,
        status: status.value,
        printed,
        count: count.value,
        next: count.next,
    }
}

// Whether an answer has this status and this value.
#[tactic(auto, unfolding(crate::specs::PrintCase::is_answer, arrow_types::specs::Status::status_of, arrow_types::specs::Status::value_of))]
fn is_answer(answer: Result<usize, Refusal>, status: u32, value: u32) -> bool
    ensures { result ≡ is_answer (answer_of number_of answer) status value }
{
    match answer {
        Ok(n) => 0 == status && n == value as usize,
        Err(refusal) => refusal.number() == status && 0 == value,
    }
}

// Whether all bytes have a value.
pub(crate) fn all_are(bytes: &[u8], value: u8) -> bool
    ensures { result ≡ all (nat_eq value) bytes.now }
{
    bytes.iter().all(|b| value == *b)
}

// Whether a buffer holds these bytes, so many, and past them what it held before.
#[tactic(auto, unfolding(crate::specs::PrintCase::leaves_bytes))]
fn leaves(out: &[u8], size: u32, printed: &[u8]) -> bool
    ensures { result ≡ leaves_bytes out.now size printed.now }
{
    datatype::equal_bytes(part_at(out, 0, size), printed)
        && all_are(rest_at(out, size as usize), UNTOUCHED as u8)
}

// Whether the printer gives a tree the status and the printed bytes of a case, in a spelling, and leaves the rest of the
// buffer.
#[tactic(auto, unfolding(crate::specs::PrintCase::gives_print))]
fn gives(spelling: Spelling, tree: Tree, case: PrintCase, printed: &[u8], out: &mut [u8]) -> bool
    ensures { result ≡ gives_print spelling tree.entry.text.now tree.entry.names.now tree.entry.rows.now (length out.old) case printed.now }
{
    out.fill(UNTOUCHED as u8);
    let answer = datatype_display::print_data_type_with(spelling, tree, out);
    is_answer(answer, case.status, case.printed.value) && leaves(out, case.printed.value, printed)
}

// The agreement with one case more.
#[tactic(auto, unfolding(crate::specs::PrintCase::one_print))]
fn one_case(
    spelling: Spelling,
    sample: &[u8],
    t: Agreement,
    case: PrintCase,
    words: &mut [u32],
    out: &mut [u8],
) -> Agreement
    ensures { result ≡ one_print spelling sample.now t case (length words.old) (length out.old) }
{
    let next = words_at(sample, case.next, words);
    let tree = Tree {
        text: bytes_of(sample, case.text),
        names: bytes_of(sample, case.names),
        rows: words,
    };
    let printed = bytes_of(sample, case.printed);
    let alike = gives(spelling, tree, case, printed, out);
    counted(t, alike, next)
}

// The agreement with the case that stands behind it.
#[tactic(auto, unfolding(crate::specs::PrintCase::print_one))]
fn print_one(
    spelling: Spelling,
    sample: &[u8],
    t: Agreement,
    words: &mut [u32],
    out: &mut [u8],
) -> Agreement
    ensures { result ≡ print_one spelling sample.now (length words.old) (length out.old) t }
{
    let case = case_at(sample, t.next);
    let count = (case.count as usize).min(words.len());
    let lent = (case.lent as usize).min(out.len());
    one_case(
        spelling,
        sample,
        t,
        case,
        &mut words[..count],
        &mut out[..lent],
    )
}

// The spelling of a sample.
pub(crate) trait Spelled: Drop {
    ghost use Rattle.display_length.specs.declared.words.Spelling.{Spelling};

    ghost spelled: { Spelling };

    fn spelling(&self) -> Spelling
        ensures { result ≡ spelled };
}

// That of the Rust.
#[derive(Drop)]
pub(crate) struct AsMicro;

impl Spelled for AsMicro {
    ghost use Rattle.display_length.specs.declared.words.Spelling.TheVariants.{Micro};

    ghost spelled = { Micro };

    fn spelling(&self) -> Spelling {
        Spelling::Micro
    }
}

// The default.
#[derive(Drop)]
pub(crate) struct AsUs;

impl Spelled for AsUs {
    ghost use Rattle.display_length.specs.declared.words.Spelling.TheVariants.{Us};

    ghost spelled = { Us };

    fn spelling(&self) -> Spelling {
        Spelling::Us
    }
}

// The prints in a spelling, with the words of a tree and the bytes that the printer is lent.
#[derive(Drop)]
pub(crate) struct Prints<S> {
    spelled: S,
    words: [u32; MOST_WORDS],
    out: [u8; MOST_BYTES],
}

impl<S> Prints<S> {
    pub(crate) fn new(spelled: S) -> Prints<S> {
        Prints {
            spelled,
            words: [0; MOST_WORDS],
            out: [0; MOST_BYTES],
        }
    }
}

impl<S: Spelled> Sample for Prints<S> {
    ghost one_of = { λ sample. print_one S.spelled sample most_words most_bytes };

    fn one(&mut self, sample: &[u8], t: Agreement) -> Agreement {
        let spelling = self.spelled.spelling();
        print_one(spelling, sample, t, &mut self.words, &mut self.out)
    }
}
