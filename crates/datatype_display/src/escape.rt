// Double-quoted strings, written as Rust's `{:?}` writes them.
ghost use Rattle.std.specs.Prelude.{◌≡◌, not, false, [], ◌∷◌, ◌++◌, ◌+◌, ◌≤◌, ◌<◌, length};
ghost use Rattle.tokenizer.specs.Text.{all};
ghost use Rattle.display_length.specs.Display.{hex_digit, hex, unicode_text, escape, escape_pair, escape_next, escaped_from, quoted};
ghost use Rattle.display_length.specs.Internal.Steps.{no_lead};
ghost use Rattle.datatype_display.specs.Internal.Steps.{Fits, Wrote, Stored, Ran, is_shown, is_itself};

use crate::write::{Printer, store, store_byte};
use display_length::LEAD;

// A lowercase hex digit: `char::from_digit` answers an `Option` of a character, of which a byte would have to be made.
fn hex_digit(n: u8) -> u8
    requires { n < 16 }
    ensures { result ≡ hex_digit n }
{
    if n < 10 {
        return b'0' + n;
    }
    b'a' - 10 + n
}

// Whether a byte that is not behind C2 is written as it is: letters, most of all bytes, are told by the fewest tests. With
// one `matches!` 700 names of ten letters take a seventh more.
#[tactic(auto, unfolding(crate::specs::Internal::Steps::is_shown))]
fn is_itself(c: u8) -> bool
    ensures { result ≡ is_itself c }
{
    if b'\\' < c {
        return c < 127 || 127 < c && c != LEAD;
    }
    if b'"' < c {
        return c != b'\\';
    }
    b' ' <= c && c != b'"'
}

// How many bytes of a string are looked at and copied at once: as many as an instruction compares and moves.
const PIECE: usize = 16;

// Whether a byte is written as something else. A piece is asked by this: by `is_itself` its bytes are compared one by one,
// and a name of 16,000 letters takes three times the instructions.
#[tactic(auto, unfolding(crate::specs::Internal::Steps::is_shown))]
fn is_escaped(c: u8) -> bool
    ensures { result ≡ not (is_shown c) }
{
    c < b' ' || c == b'"' || c == b'\\' || c == 127
}

// Whether a piece has C2: each byte is looked at, with no early exit, so that all are compared at once. Asked in one loop
// with the next, a name of 16,000 letters takes half as many instructions more.
#[tactic(auto, using(crate::proofs::Escapes::lead_steps))]
fn has_lead(piece: &[u8; PIECE]) -> bool
    ensures { result ≡ not (all no_lead piece.now) }
{
    let mut found = false;
    for c in piece {
        found |= *c == LEAD;
    }
    found
}

// Whether a byte of a piece is written as something else, looked at in the same way.
#[tactic(auto, using(crate::proofs::Escapes::found_steps))]
fn has_escaped(piece: &[u8; PIECE]) -> bool
    ensures { result ≡ not (all is_shown piece.now) }
{
    let mut found = false;
    for c in piece {
        found |= is_escaped(*c);
    }
    found
}

// Writes the bytes up to the first that is escaped, and answers how many they are: of most names, all. One loop looks
// at a byte and writes it, since most names are short. It is lent the output and not the printer, whose place and whose
// slice would be read again at each byte: as a method that calls `put_mark`, 700 fields take 3 in 100 more, with names of
// ten letters 8 in 100.
#[tactic(auto, using(crate::proofs::Escapes::run_steps))]
fn put_run(out: &mut [u8], at: usize, s: &[u8]) -> usize
    requires { at + length (escaped_from false s.now) ≤ length out.old }
    ensures { Ran out.old at s.now result out.new }
{
    for (i, c) in s.iter().enumerate() {
        if !is_itself(*c) {
            return i;
        }
        out[at + i] = *c;
    }
    s.len()
}

// The same of a string that is shorter than a piece; of a longer one it writes nothing. So a short name is written by one
// loop in a function that calls no other: with pieces looked for before that loop, 700 names of ten letters take 5 in 100
// more instructions.
#[tactic(auto, using(crate::proofs::Escapes::ran_none))]
fn put_short(out: &mut [u8], at: usize, s: &[u8]) -> usize
    requires { at + length (escaped_from false s.now) ≤ length out.old }
    ensures { Ran out.old at s.now result out.new }
{
    if PIECE <= s.len() {
        return 0;
    }
    put_run(out, at, s)
}

// Writes a byte's hex digits, and answers the place behind them. This and those below, to `put_escaped`, are lent the output
// and the place: a printer's would be read again at each byte, and a name of control characters takes 9 in 100 more.
#[tactic(auto, using(crate::proofs::Writes::stores))]
fn put_hex(out: &mut [u8], at: usize, c: u8) -> usize
    requires { at + length (hex c) ≤ length out.old }
    ensures { Stored out.old at (hex c) result out.new }
{
    if c < 16 {
        return store_byte(out, at, hex_digit(c));
    }
    let last = store_byte(out, at, hex_digit(c / 16));
    store_byte(out, last, hex_digit(c % 16))
}

// Writes a character by its number in hex digits.
#[tactic(auto, using(crate::proofs::Writes::stores), unfolding(display_length::specs::Display::unicode_text))]
fn put_unicode(out: &mut [u8], at: usize, c: u8) -> usize
    requires { at + length (unicode_text c) ≤ length out.old }
    ensures { Stored out.old at (unicode_text c) result out.new }
{
    let digits = store(out, at, b"\\u{");
    let end = put_hex(out, digits, c);
    store_byte(out, end, b'}')
}

// Writes a control character before the space.
#[tactic(auto, using(crate::proofs::Writes::stores), unfolding(display_length::specs::Display::escape))]
fn put_control(out: &mut [u8], at: usize, c: u8) -> usize
    requires { (c < 32) × (at + length (escape c) ≤ length out.old) }
    ensures { Stored out.old at (escape c) result out.new }
{
    match c {
        0 => store(out, at, b"\\0"),
        b'\t' => store(out, at, b"\\t"),
        b'\r' => store(out, at, b"\\r"),
        b'\n' => store(out, at, b"\\n"),
        _ => put_unicode(out, at, c),
    }
}

// Writes what is written at a byte between the marks: at C2 nothing. Of a small letter three tests tell that it is written as it
// is; with one `match` of all bytes, a name with a tab at each tenth byte takes 5 in 100 more.
#[tactic(auto, using(crate::proofs::Writes::stores), unfolding(crate::specs::Internal::Steps::is_shown, display_length::specs::Display::escape))]
fn put_escape(out: &mut [u8], at: usize, c: u8) -> usize
    requires { at + length (escape c) ≤ length out.old }
    ensures { Stored out.old at (escape c) result out.new }
{
    if c < b' ' {
        return put_control(out, at, c);
    }
    if is_itself(c) {
        return store_byte(out, at, c);
    }
    match c {
        b'"' => store(out, at, b"\\\""),
        b'\\' => store(out, at, b"\\\\"),
        LEAD => at,
        _ => put_unicode(out, at, c),
    }
}

// Writes what is written at a byte behind C2: the character's number, or both bytes.
#[tactic(auto, using(crate::proofs::Writes::stores), unfolding(display_length::specs::Display::escape_pair))]
fn put_pair(out: &mut [u8], at: usize, c: u8) -> usize
    requires { at + length (escape_pair c) ≤ length out.old }
    ensures { Stored out.old at (escape_pair c) result out.new }
{
    match c {
        0x80..=0xA0 | 0xAD => put_unicode(out, at, c),
        _ => {
            let second = store_byte(out, at, LEAD);
            store_byte(out, second, c)
        }
    }
}

// Writes what is written at a byte, behind C2 or not.
#[tactic(auto, unfolding(display_length::specs::Display::escape_next))]
fn put_next(out: &mut [u8], at: usize, lead: bool, c: u8) -> usize
    requires { at + length (escape_next lead c) ≤ length out.old }
    ensures { Stored out.old at (escape_next lead c) result out.new }
{
    if lead {
        return put_pair(out, at, c);
    }
    put_escape(out, at, c)
}

// Writes a string byte by byte, behind C2 or not.
#[tactic(auto, using(crate::proofs::Escapes::next_steps))]
fn put_escaped(out: &mut [u8], at: usize, lead: bool, s: &[u8]) -> usize
    requires { at + length (escaped_from lead s.now) ≤ length out.old }
    ensures { Stored out.old at (escaped_from lead s.now) result out.new }
{
    let mut next = at;
    let mut behind = lead;
    for &c in s {
        next = put_next(out, next, behind, c);
        behind = c == LEAD;
    }
    next
}

impl<'a> Printer<'a> {
    // Writes a part of what stands between the marks: a run, and byte by byte what follows it.
    fn put_between(&mut self, lead: bool, s: &[u8])
        requires { Fits self.old (escaped_from lead s.now) }
        ensures { Wrote self.old (escaped_from lead s.now) self.new }
    {
        if lead {
            self.at = put_escaped(self.out, self.at, lead, s);
        } else {
            let n = put_run(self.out, self.at, s);
            self.at = put_escaped(self.out, self.at + n, lead, &s[n..]);
        }
    }

    // Writes a piece as it is: it is made part of its caller, where the piece's length is known, and one move writes it.
    #[inline(always)]
    fn put_whole(&mut self, piece: &[u8])
        requires { Fits self.old piece.now }
        ensures { Wrote self.old piece.now self.new }
    {
        let end = self.at + piece.len();
        self.out[self.at..end].copy_from_slice(piece);
        self.at = end;
    }

    // Writes a piece: at once where nothing in it is escaped.
    #[tactic(auto, using(crate::proofs::Escapes::itself_fits))]
    fn put_piece(&mut self, lead: bool, piece: &[u8; PIECE])
        requires { Fits self.old (escaped_from lead piece.now) }
        ensures { Wrote self.old (escaped_from lead piece.now) self.new }
    {
        if lead {
            self.at = put_escaped(self.out, self.at, lead, piece);
        } else if has_escaped(piece) || has_lead(piece) {
            self.put_between(lead, piece);
        } else {
            self.put_whole(piece);
        }
    }

    // Writes what is left of a string and the mark behind it. It is no part of `put_quoted`, or 700 names of ten letters take
    // 4 in 1,000 more.
    #[inline(never)]
    #[tactic(auto, using(crate::proofs::Writes::left_start))]
    fn put_rest(&mut self, s: &[u8])
        requires { Fits self.old (escaped_from false s.now ++ (34 ∷ [])) }
        ensures { Wrote self.old (escaped_from false s.now ++ (34 ∷ [])) self.new }
    {
        let mut rest = s;
        let mut lead = false;
        while let Some((piece, behind)) = rest.split_first_chunk::<PIECE>() {
            self.put_piece(lead, piece);
            lead = piece[PIECE - 1] == LEAD;
            rest = behind;
        }
        self.put_between(lead, rest);
        self.put_mark(b'"');
    }

    // Writes a string in double quotes. It is no part of its callers, or 700 names of ten letters take 9 in 1,000 more; and it
    // holds its place itself, which by `put_mark` would be stored and read again around a short string, for 4 in 1,000 more.
    #[inline(never)]
    #[tactic(auto, unfolding(display_length::specs::Display::quoted, display_length::specs::Display::escaped))]
    pub(crate) fn put_quoted(&mut self, s: &[u8])
        requires { Fits self.old (quoted s.now) }
        ensures { Wrote self.old (quoted s.now) self.new }
    {
        let start = self.at;
        self.out[start] = b'"';
        let n = put_short(self.out, start + 1, s);
        let end = start + 1 + n;
        if n < s.len() {
            self.at = end;
            self.put_rest(&s[n..]);
        } else {
            self.out[end] = b'"';
            self.at = end + 1;
        }
    }
}
