// Replaying the sample of the archive: each image is read, and one that is accepted is written again.
ghost use Rattle.std.specs.Prelude.{◌≡◌, min, length};
ghost use Rattle.replay.specs.Sample.{most_words, most_bytes};
ghost use Rattle.replay.specs.ImageCase.{image_case_at, leaves_text, gives_image, writes_image, image_alike, one_image, image_one};

use crate::counts::counted;
use crate::prints::all_are;
use crate::samples::Sample;
use crate::stored::{after_part, bytes_of, number_at, part_at, rest_at};
use crate::texts::left_words;
use crate::{Agreement, ImageCase, MOST_BYTES, MOST_WORDS, ReadCase, UNTOUCHED};
use datatype::Field;
use datatype::rows::ROW_WORDS;

// What stands before the rows' words of a case.
#[tactic(auto, unfolding(crate::specs::ImageCase::image_case_at))]
fn case_at(sample: &[u8], at: usize) -> ImageCase
    ensures { result ≡ image_case_at sample.now at }
{
    let lent = number_at(sample, at);
    let bytes = number_at(sample, lent.next);
    let image = number_at(sample, bytes.next);
    let status = number_at(sample, after_part(sample, image.next, image.value));
    let count = number_at(sample, status.next);
    let text = number_at(sample, count.next);
    let read = ReadCase {
        lent: lent.value,
        at: image.next,
        size: image.value,
        status: status.value,
        value: count.value,
        place: 0,
        next: after_part(sample, text.next, text.value),
    };
    ImageCase {
        read,
        bytes: bytes.value,
        text,
    }
}

// Whether a lent text holds this text, and past it what the status says.
#[tactic(auto, unfolding(crate::specs::ImageCase::leaves_text))]
fn leaves_text(out: &[u8], status: u32, text: &[u8]) -> bool
    ensures { result ≡ leaves_text out.now status text.now }
{
    let size = text.len().min(out.len());
    let behind = if status == 0 { UNTOUCHED as u8 } else { 0 };
    datatype::equal_bytes(&out[..size], text) && all_are(rest_at(out, text.len()), behind)
}

// Whether an image gives the status, the row count and the text of a case, and leaves these words of those lent.
#[tactic(auto, unfolding(crate::specs::ImageCase::gives_image))]
fn gives(
    image: &[u8],
    case: ReadCase,
    left: &[u32],
    stored: &[u8],
    rows: &mut [u32],
    text: &mut [u8],
) -> bool
    ensures { result ≡ gives_image image.now (length rows.old) (length text.old) case.status case.value left.now stored.now }
{
    rows.fill(UNTOUCHED);
    text.fill(UNTOUCHED as u8);
    let mut count: usize = 0;
    let mut size: usize = 0;
    let status = arrow_types::arrow_types_from_archive(image, rows, text, &mut count, &mut size);
    if status != case.status || count != case.value as usize || size != stored.len() {
        return false;
    }
    datatype::equal_words(rows, left) && leaves_text(text, case.status, stored)
}

// Whether a tree of these rows over this text is written as this image.
#[tactic(auto, unfolding(crate::specs::ImageCase::writes_image))]
fn writes(text: &[u8], rows: &[u32], image: &[u8], out: &mut [u8]) -> bool
    ensures { result ≡ writes_image text.now rows.now image.now (length out.old) }
{
    out.fill(UNTOUCHED as u8);
    let mut size: usize = 0;
    let status = arrow_types::arrow_types_to_archive(text, &Field::NAME_LIST, rows, out, &mut size);
    status == 0 && size == image.len() && datatype::equal_bytes(out, image)
}

// Whether an image gives what a case says, these words among it, and is written again where it is accepted.
#[tactic(auto, unfolding(crate::specs::ImageCase::image_alike))]
fn alike(
    sample: &[u8],
    case: ImageCase,
    left: &[u32],
    rows: &mut [u32],
    text: &mut [u8],
    out: &mut [u8],
) -> bool
    ensures { result ≡ image_alike sample.now case left.now (length rows.old) (length text.old) (length out.old) }
{
    let image = part_at(sample, case.read.at, case.read.size);
    let stored = bytes_of(sample, case.text);
    if !gives(image, case.read, left, stored, rows, text) {
        return false;
    }
    let n = (ROW_WORDS * (case.read.value as usize)).min(left.len());
    case.read.status != 0 || writes(stored, &left[..n], image, out)
}

// The agreement with one case more.
#[tactic(auto, unfolding(crate::specs::ImageCase::one_image))]
fn one_case(
    sample: &[u8],
    t: Agreement,
    case: ImageCase,
    rows: &mut [u32],
    left: &mut [u32],
    text: &mut [u8],
    out: &mut [u8],
) -> Agreement
    ensures { result ≡ one_image sample.now t case (length rows.old) (length left.old) (length text.old) (length out.old) }
{
    let next = left_words(sample, case.read, left);
    let alike = alike(sample, case, left, rows, text, out);
    counted(t, alike, next)
}

// The agreement with the case that stands behind it.
#[tactic(auto, unfolding(crate::specs::ImageCase::image_one))]
fn image_one(
    sample: &[u8],
    t: Agreement,
    rows: &mut [u32],
    left: &mut [u32],
    text: &mut [u8],
    out: &mut [u8],
) -> Agreement
    ensures { result ≡ image_one sample.now (min (length rows.old) (length left.old)) (min (length text.old) (length out.old)) t }
{
    let case = case_at(sample, t.next);
    let words = rows.len().min(left.len());
    let most = text.len().min(out.len());
    let lent = (case.read.lent as usize).min(words);
    let bytes = (case.bytes as usize).min(most);
    let size = (case.read.size as usize).min(most);
    one_case(
        sample,
        t,
        case,
        &mut rows[..lent],
        &mut left[..lent],
        &mut text[..bytes],
        &mut out[..size],
    )
}

// The images, with the words and bytes lent, the words that are to be left, and the bytes that an image is written into.
#[derive(Drop)]
pub(crate) struct Images {
    rows: [u32; MOST_WORDS],
    left: [u32; MOST_WORDS],
    text: [u8; MOST_BYTES],
    out: [u8; MOST_BYTES],
}

impl Images {
    pub(crate) fn new() -> Images {
        Images {
            rows: [0; MOST_WORDS],
            left: [0; MOST_WORDS],
            text: [0; MOST_BYTES],
            out: [0; MOST_BYTES],
        }
    }
}

impl Sample for Images {
    ghost one_of = { λ sample. image_one sample most_words most_bytes };

    fn one(&mut self, sample: &[u8], t: Agreement) -> Agreement {
        image_one(
            sample,
            t,
            &mut self.rows,
            &mut self.left,
            &mut self.text,
            &mut self.out,
        )
    }
}
