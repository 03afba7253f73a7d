// Types in the archive record, for services: the answers as numbers.
ghost use Rattle.std.specs.Prelude.{◌≡◌};
ghost use Rattle.arrow_types.specs.Status.{status_of, value_of};
ghost use Rattle.packing.specs.Packed.{rows_answered, bytes_answered};
ghost use Rattle.archive.specs.Archive.{archive_answer, archive_bytes, unarchive_answer, unarchive_rows, unarchive_text};

use archive::{read_archive, write_archive};
use datatype::Tree;
use tokenizer::Numbered;

// Writes a tree's image, the bytes of its archive record, into a lent buffer.
#[tactic(auto, unfolding(crate::specs::Status::status_of, crate::specs::Status::value_of))]
pub fn arrow_types_to_archive<'a>(
    text: &'a [u8],
    names: &'a [u8],
    rows: &[u32],
    out: &mut [u8],
    length: &mut usize,
) -> u32
    ensures status { result ≡ status_of (archive_answer text.now names.now rows.now out.old) }
    ensures value { length.new ≡ value_of (archive_answer text.now names.now rows.now out.old) }
    ensures bytes { out.new ≡ archive_bytes text.now names.now rows.now out.old }
{
    *length = 0;
    match write_archive(Tree { text, names, rows }, out) {
        Ok(n) => {
            *length = n;
            0
        }
        Err(e) => e.number(),
    }
}

// Reads an image into lent rows, over a lent text.
#[tactic(auto, unfolding(crate::specs::Status::status_of, packing::specs::Packed::rows_answered, packing::specs::Packed::bytes_answered))]
pub fn arrow_types_from_archive(
    image: &[u8],
    rows: &mut [u32],
    text: &mut [u8],
    count: &mut usize,
    length: &mut usize,
) -> u32
    ensures status { result ≡ status_of (unarchive_answer image.now rows.old text.old) }
    ensures count { count.new ≡ rows_answered (unarchive_answer image.now rows.old text.old) }
    ensures length { length.new ≡ bytes_answered (unarchive_answer image.now rows.old text.old) }
    ensures contents { rows.new ≡ unarchive_rows image.now rows.old text.old }
    ensures bytes { text.new ≡ unarchive_text image.now rows.old text.old }
{
    *count = 0;
    *length = 0;
    match read_archive(image, rows, text) {
        Ok(packed) => {
            *count = packed.rows;
            *length = packed.bytes;
            0
        }
        Err(e) => e.number(),
    }
}
