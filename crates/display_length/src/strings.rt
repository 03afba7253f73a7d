// Strings: whether they are Latin and clean, and the lengths of those in double quotes, which are written as Rust's `{:?}`
// writes them.
ghost use Rattle.std.specs.Prelude.{◌≡◌, not, ◌<◌, ◌^◌, length};
ghost use Rattle.tokenizer.specs.Text.{all};
ghost use Rattle.display_length.specs.Display.{escape, escape_pair, escape_next, quoted, zone_text, list_name_text};
ghost use Rattle.display_length.specs.PrintedLength.{is_latin};
ghost use Rattle.display_length.specs.Internal.Steps.{is_clean, no_lead, clean_weight, Clean};

use datatype::{Field, equal_bytes};

// The first byte of U+0080 to U+00BF; behind it stands the character's number.
pub const LEAD: u8 = 0xC2;

// How many bytes the marks around a string are.
const MARKS: usize = b"\"\"".len();

// The greatest byte of characters up to U+017F.
const LATIN_TOP: u8 = 0xC5;

// Whether all bytes are of characters up to U+017F: every byte is looked at, with no early exit, so that many are compared
// at once.
#[tactic(auto, using(crate::proofs::Rules::is_latin_steps))]
pub(crate) fn is_latin(s: &[u8]) -> bool
    ensures { result ≡ is_latin s.now }
{
    let mut top = 0u8;
    for &c in s {
        top = c.max(top);
    }
    top <= LATIN_TOP
}

// A byte's weight: at most that of a Latin byte where it is clean.
fn clean_weight(c: u8) -> u8
    ensures { result ≡ clean_weight c }
{
    if c < 32 || c == b'\\' || c == 127 || c == LEAD {
        255
    } else {
        c
    }
}

// Whether all bytes are Latin and none but the double quote is escaped, looked at in the same way. By `fold` they are
// compared one by one, and the length of 700 fields takes a third more instructions.
#[tactic(auto, using(crate::proofs::Rules::is_clean_steps))]
pub(crate) fn is_clean(s: &[u8]) -> bool
    ensures { result ≡ all is_clean s.now }
{
    let mut top = 0u8;
    for &c in s {
        top = clean_weight(c).max(top);
    }
    top <= LATIN_TOP
}

// How many bytes are written at a control character. With one `match` of all bytes, printing 8,000 letters of which each tenth is a
// tab takes a sixth more instructions.
#[tactic(auto, unfolding(crate::specs::Display::escape, crate::specs::Display::unicode_text))]
fn control_length(c: u8) -> usize
    requires { c < 32 }
    ensures { result ≡ length (escape c) }
{
    match c {
        0 | b'\t' | b'\r' | b'\n' => b"\\n".len(),
        1..=15 => b"\\u{f}".len(),
        _ => b"\\u{1f}".len(),
    }
}

// How many bytes are written at a byte between the marks.
#[tactic(auto, unfolding(crate::specs::Display::escape, crate::specs::Display::unicode_text))]
fn escape_length(c: u8) -> usize
    ensures { result ≡ length (escape c) }
{
    if c < b' ' {
        return control_length(c);
    }
    match c {
        b'"' | b'\\' => b"\\n".len(),
        127 => b"\\u{1f}".len(),
        LEAD => 0,
        _ => 1,
    }
}

// How many bytes are written at a byte behind C2.
#[tactic(auto, unfolding(crate::specs::Display::escape_pair, crate::specs::Display::unicode_text))]
fn pair_length(c: u8) -> usize
    ensures { result ≡ length (escape_pair c) }
{
    match c {
        0x80..=0xA0 | 0xAD => b"\\u{a0}".len(),
        _ => b"\xC2\xA1".len(),
    }
}

// How many bytes are written at a byte, behind C2 or not.
#[tactic(auto, unfolding(crate::specs::Display::escape_next))]
fn next_length(lead: bool, c: u8) -> usize
    ensures { result ≡ length (escape_next lead c) }
{
    if lead {
        pair_length(c)
    } else {
        escape_length(c)
    }
}

// Whether a string has C2, looked at as `is_latin` does. By `contains`, which then stands in two places and is made part of
// neither, printing 390 decimals takes 1 in 100 more instructions.
#[tactic(auto, using(crate::proofs::Rules::lead_steps))]
fn has_lead(s: &[u8]) -> bool
    ensures { result ≡ not (all no_lead s.now) }
{
    let mut found = false;
    for &c in s {
        found |= c == LEAD;
    }
    found
}

// How long a string that has C2 is in double quotes, byte by byte.
#[tactic(auto, using(crate::proofs::Rules::paired_steps))]
fn paired_length(s: &[u8]) -> usize
    requires { length (quoted s.now) < 2 ^ 64 }
    ensures { result ≡ length (quoted s.now) }
{
    let mut total = MARKS;
    let mut lead = false;
    for &c in s {
        total += next_length(lead, c);
        lead = c == LEAD;
    }
    total
}

// How long a string is in double quotes, counted byte by byte. Most have no C2: looked for at once, each byte is told by fewer tests.
// It is no part of its caller, which most names leave before it.
#[inline(never)]
#[tactic(auto, using(crate::proofs::Rules::counted_steps))]
fn counted_length(s: &[u8]) -> usize
    requires { length (quoted s.now) < 2 ^ 64 }
    ensures { result ≡ length (quoted s.now) }
{
    if has_lead(s) {
        return paired_length(s);
    }
    let mut total = MARKS;
    for &c in s {
        total += escape_length(c);
    }
    total
}

// A part of the text or of the name list, and whether it is known to be clean. No `Option`: its bytes count either way.
#[derive(Clone, Copy)]
pub(crate) struct Part<'a> {
    pub(crate) bytes: &'a [u8],
    pub(crate) clean: bool,
    ghost so: { Clean clean bytes.now },
}

impl<'a> Part<'a> {
    // How long it is in double quotes. A clean one without a double quote is written as it is.
    #[tactic(auto, using(crate::proofs::Rules::quoted_steps))]
    pub(crate) fn quoted_length(&self) -> usize
        ensures { result ≡ length (quoted self.now.bytes.now) }
    {
        if self.clean && !self.bytes.contains(&b'"') {
            return MARKS + self.bytes.len();
        }
        counted_length(self.bytes)
    }

    // How long it is as a zone behind a unit: an empty one is none.
    #[tactic(auto, using(crate::proofs::Rules::zone_steps))]
    pub(crate) fn zone_length(&self) -> usize
        ensures { result ≡ length (zone_text self.now.bytes.now) }
    {
        if self.bytes.is_empty() {
            return 0;
        }
        b", ".len() + self.quoted_length()
    }

    // How long it is as a list's name, which prints raw and is left out if it is `item`.
    #[tactic(auto, using(crate::proofs::StringLaws::list_name_is))]
    pub(crate) fn list_name_length(&self) -> usize
        ensures { result ≡ length (list_name_text self.now.bytes.now) }
    {
        if equal_bytes(self.bytes, &Field::LIST_FIELD_DEFAULT_NAME) {
            return 0;
        }
        b", field: ''".len() + self.bytes.len()
    }
}
