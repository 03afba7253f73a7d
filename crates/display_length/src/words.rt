// The words that numbers stand for, of kinds, units and modes, and how long a scale is. They are numbers, since C lends
// the rows that they stand in.
ghost use Rattle.std.specs.Prelude.{◌≡◌, length};
ghost use Rattle.display_length.specs.Display.{kind_text, microsecond_text, unit_text, interval_text, mode_text, sorted_text, scale_text};
ghost use Rattle.display_length.specs.Internal.Steps.{word_length};

use datatype::kind;
use writer::digits_length;

// A kind's word. What is no kind has none: no bytes, as its definition has it, and no `Option`, since no caller asks.
#[tactic(auto, using(crate::proofs::WordLaws::none_text), unfolding(crate::specs::Display::kind_text, crate::specs::Display::kind_word, tokenizer::specs::Words::words))]
pub fn kind_word(kind: u32) -> &'static [u8]
    ensures { result.now ≡ kind_text kind }
{
    match kind {
        kind::NULL => b"Null",
        kind::BOOLEAN => b"Boolean",
        kind::INT8 => b"Int8",
        kind::INT16 => b"Int16",
        kind::INT32 => b"Int32",
        kind::INT64 => b"Int64",
        kind::UINT8 => b"UInt8",
        kind::UINT16 => b"UInt16",
        kind::UINT32 => b"UInt32",
        kind::UINT64 => b"UInt64",
        kind::FLOAT16 => b"Float16",
        kind::FLOAT32 => b"Float32",
        kind::FLOAT64 => b"Float64",
        kind::TIMESTAMP => b"Timestamp",
        kind::DATE32 => b"Date32",
        kind::DATE64 => b"Date64",
        kind::TIME32 => b"Time32",
        kind::TIME64 => b"Time64",
        kind::DURATION => b"Duration",
        kind::INTERVAL => b"Interval",
        kind::BINARY => b"Binary",
        kind::FIXED_SIZE_BINARY => b"FixedSizeBinary",
        kind::LARGE_BINARY => b"LargeBinary",
        kind::BINARY_VIEW => b"BinaryView",
        kind::UTF8 => b"Utf8",
        kind::LARGE_UTF8 => b"LargeUtf8",
        kind::UTF8_VIEW => b"Utf8View",
        kind::LIST => b"List",
        kind::LIST_VIEW => b"ListView",
        kind::FIXED_SIZE_LIST => b"FixedSizeList",
        kind::LARGE_LIST => b"LargeList",
        kind::LARGE_LIST_VIEW => b"LargeListView",
        kind::STRUCT => b"Struct",
        kind::UNION => b"Union",
        kind::DICTIONARY => b"Dictionary",
        kind::DECIMAL32 => b"Decimal32",
        kind::DECIMAL64 => b"Decimal64",
        kind::DECIMAL128 => b"Decimal128",
        kind::DECIMAL256 => b"Decimal256",
        kind::MAP => b"Map",
        kind::RUN_END_ENCODED => b"RunEndEncoded",
        _ => b"",
    }
}

// How long a kind's word is.
#[tactic(auto, unfolding(crate::specs::Internal::Steps::word_length))]
pub(crate) fn word_length(kind: u32) -> usize
    ensures { result ≡ word_length kind }
{
    kind_word(kind).len()
}

// How microseconds are spelled: `us`, or with the micro sign `µs`, as the Rust has it.
#[derive(Clone, Copy)]
pub enum Spelling {
    Us,
    Micro,
}

// Microseconds.
#[tactic(auto, unfolding(crate::specs::Display::microsecond_text))]
fn microsecond_word(spelling: Spelling) -> &'static [u8]
    ensures { result.now ≡ microsecond_text spelling }
{
    match spelling {
        Spelling::Us => b"us",
        Spelling::Micro => b"\xC2\xB5s",
    }
}

// A time unit's word in a spelling; a number above 2 is ns.
#[tactic(auto, unfolding(crate::specs::Display::unit_text))]
pub fn unit_word(spelling: Spelling, unit: u32) -> &'static [u8]
    ensures { result.now ≡ unit_text spelling unit }
{
    match unit {
        0 => b"s",
        1 => b"ms",
        2 => microsecond_word(spelling),
        _ => b"ns",
    }
}

// An interval unit's word; a number above 1 is MonthDayNano.
#[tactic(auto, unfolding(crate::specs::Display::interval_text))]
pub fn interval_word(unit: u32) -> &'static [u8]
    ensures { result.now ≡ interval_text unit }
{
    match unit {
        0 => b"YearMonth",
        1 => b"DayTime",
        _ => b"MonthDayNano",
    }
}

// The word of a union's mode; a number above 0 is Dense. It and the next differ in their words alone: one for both would
// take the two words.
#[tactic(auto, unfolding(crate::specs::Display::mode_text))]
pub fn mode_word(mode: u32) -> &'static [u8]
    ensures { result.now ≡ mode_text mode }
{
    match mode {
        0 => b"Sparse",
        _ => b"Dense",
    }
}

// The word for whether a map's keys are sorted; a number above 0 is sorted.
#[tactic(auto, unfolding(crate::specs::Display::sorted_text))]
pub fn sorted_word(sorted: u32) -> &'static [u8]
    ensures { result.now ≡ sorted_text sorted }
{
    match sorted {
        0 => b"unsorted",
        _ => b"sorted",
    }
}

// How long a decimal's scale is, of which the word is 128 more.
#[tactic(auto, using(writer::proofs::DigitLaws::digits_few), unfolding(crate::specs::Display::scale_text))]
pub(crate) fn scale_length(scale: u32) -> usize
    ensures { result ≡ length (scale_text scale) }
{
    if scale < 128 {
        return 1 + digits_length(128 - scale);
    }
    digits_length(scale - 128)
}
