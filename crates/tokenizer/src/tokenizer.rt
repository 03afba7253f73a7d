// The token at a place of a text.
ghost use Rattle.std.specs.Prelude.{◌≡◌, false, ◌+◌, ◌<◌, ◌≤◌, length, drop};
ghost use Rattle.tokenizer.specs.Answer.{number_of, answer_of};
ghost use Rattle.tokenizer.specs.Token.{standing_of, token_or_refusal, is_separator, escaped_after, until_quote, string_token, token_at};
ghost use Rattle.tokenizer.specs.Places.{after_spaces, next_byte, word_end};
ghost use Rattle.tokenizer.specs.WordTable.{token_by};
ghost use Rattle.tokenizer.specs.Internal.Ends.{closes, quote_end, mark_place};

use crate::edges::{EDGES, WordTable};
use crate::words::word_token;
use crate::{NoToken, Refusal, Token, TokenKind};

// The first place at or behind `from` that holds no space.
// A `for`: measured, by `position` a call takes twice the instructions, and the tokens of a text 6 in 100 more.
#[tactic(auto, using(crate::proofs::Rules::space_steps))]
pub fn skip_spaces(text: &[u8], from: usize) -> usize
    ensures { result ≡ after_spaces text.now from }
{
    for at in from..text.len() {
        if text[at] != b' ' {
            return at;
        }
    }
    from.max(text.len())
}

// The place behind a byte, where it is the first at or behind `from` that is no space. Most that are looked for stand right
// there: told so first, the texts of `tests/bench` take 2 to 3 in 100 fewer instructions to read.
#[tactic(auto, using(crate::proofs::NextByte::right_there), unfolding(crate::specs::Places::next_byte))]
pub fn next_byte(text: &[u8], from: usize, byte: u8) -> Option<usize>
    ensures { result ≡ next_byte text.now from byte }
{
    if byte != b' ' && from < text.len() && text[from] == byte {
        return Some(from + 1);
    }
    let place = skip_spaces(text, from);
    if place < text.len() && text[place] == byte {
        return Some(place + 1);
    }
    None
}

// Whether a byte ends a word: one of the four marks, or a space.
#[tactic(auto, unfolding(crate::specs::Token::is_separator))]
pub fn is_separator(b: u8) -> bool
    ensures { result ≡ is_separator b }
{
    b == b'(' || b == b')' || b == b',' || b == b':' || b == b' '
}

// The place behind the word that starts at `from`.
#[tactic(auto, using(crate::proofs::Runs::word_out))]
pub fn word_end(text: &[u8], from: usize) -> usize
    ensures { result ≡ word_end text.now from }
{
    let Some(rest) = text.get(from..) else {
        return from;
    };
    from + rest
        .iter()
        .position(|b| is_separator(*b))
        .unwrap_or(rest.len())
}

// Whether a byte ends the string that it stands in.
fn ends_string(quote: u8, escaped: bool, b: u8) -> bool
    ensures { result ≡ closes quote escaped b }
{
    b == quote && !escaped
}

// The escape behind a byte: a backslash sets it, and only the mark clears it.
fn escaped_after(quote: u8, escaped: bool, b: u8) -> bool
    ensures { result ≡ escaped_after quote escaped b }
{
    b == b'\\' || (escaped && b != quote)
}

// The place of the mark that ends a string, from a place in it on that no escape reaches.
#[tactic(auto, using(crate::proofs::Rules::escaped_steps))]
fn escaped_end(text: &[u8], from: usize, quote: u8) -> Option<usize>
    ensures { result ≡ mark_place text.now quote false from }
{
    let mut escaped = false;
    for at in from..text.len() {
        let b = text[at];
        if ends_string(quote, escaped, b) {
            return Some(at);
        }
        escaped = escaped_after(quote, escaped, b);
    }
    None
}

// The place of the mark that ends the string whose bytes start at `from`.
#[tactic(auto, using(crate::proofs::Rules::quote_steps))]
fn quote_end(text: &[u8], from: usize, quote: u8) -> Option<usize>
    ensures { result ≡ mark_place text.now quote false from }
{
    for at in from..text.len() {
        let b = text[at];
        if b == quote {
            return Some(at);
        }
        if b == b'\\' {
            return escaped_end(text, at, quote);
        }
    }
    None
}

// A place at or behind `from` before which all bytes are above the backslash, as most letters are: no string ends there.
// Names are most of a text. Measured: with letters looked at one by one, a text of ten-letter names takes 8 in 100 more
// instructions. A `while`, since the place is answered, and a `for` that steps by four would have to find it anew.
#[tactic(auto, using(crate::proofs::Rules::letter_steps))]
fn past_letters(text: &[u8], from: usize, quote: u8) -> usize
    requires { (from ≤ length text.now) × (quote ≤ 92) }
    ensures { (result ≤ length text.now) × (quote_end text.now quote false result ≡ quote_end text.now quote false from) }
{
    let mut i = from;
    while text.len() - i >= 4 {
        if text[i] <= b'\\' {
            return i;
        }
        if text[i + 1] <= b'\\' {
            return i + 1;
        }
        if text[i + 2] <= b'\\' {
            return i + 2;
        }
        if text[i + 3] <= b'\\' {
            return i + 3;
        }
        i += 4;
    }
    i
}

// The token of a kind that starts at a place and has a length.
pub(crate) fn token_of(kind: TokenKind, at: usize, size: usize) -> Token
    requires { at + size < 18446744073709551616 }
    ensures { result ≡ record { kind = kind; start = at; size = size; next = at + size } }
{
    Token {
        kind: kind,
        start: at,
        size: size,
        next: at + size,
    }
}

// The string whose opening mark stands at a place.
#[tactic(auto, using(crate::proofs::Rules::string_steps))]
fn quoted_string(text: &[u8], at: usize, quote: u8, kind: TokenKind) -> Result<Token, Refusal>
    requires { (at < length text.now) × (quote ≤ 92) }
    ensures { answer_of number_of result ≡ token_or_refusal (string_token kind at (until_quote quote false (drop (at + 1) text.now))) }
{
    let start = at + 1;
    let letters = past_letters(text, start, quote);
    let Some(end) = quote_end(text, letters, quote) else {
        return Err(Refusal::StringNeverEnds);
    };
    if end <= start {
        return Err(Refusal::StringEmpty);
    }
    Ok(Token {
        kind: kind,
        start: start,
        size: end - start,
        next: end + 1,
    })
}

// The token at or behind a place, a word by a walk through the table that is lent; of what is none, why alone. Only the space
// is skipped.
#[tactic(auto, using(crate::proofs::Rules::token_steps))]
fn read_token_by(table: &WordTable, text: &[u8], from: usize) -> Result<Token, Refusal>
    ensures { answer_of number_of result ≡ token_or_refusal (token_by table.now text.now from) }
{
    let at = skip_spaces(text, from);
    if at >= text.len() {
        return Err(Refusal::TextEnds);
    }
    match text[at] {
        b'(' => Ok(token_of(TokenKind::LParen, at, 1)),
        b')' => Ok(token_of(TokenKind::RParen, at, 1)),
        b',' => Ok(token_of(TokenKind::Comma, at, 1)),
        b':' => Ok(token_of(TokenKind::Colon, at, 1)),
        b'"' => quoted_string(text, at, b'"', TokenKind::DoubleQuotedString),
        b'\'' => quoted_string(text, at, b'\'', TokenKind::SingleQuotedString),
        _ => word_token(table, text, at),
    }
}

// The token at or behind a place; of what is none, why alone: what a reader asks that keeps its own places.
#[tactic(auto, using(crate::proofs::Rules::table_steps), unfolding(crate::specs::Edges::edges))]
pub fn read_token(text: &[u8], from: usize) -> Result<Token, Refusal>
    ensures { answer_of number_of result ≡ token_or_refusal (token_at text.now from) }
{
    read_token_by(&EDGES, text, from)
}

// The token at or behind a place, a word by a walk through the table that is lent; or what is none, and where it stands.
#[tactic(auto, using(crate::proofs::Rules::stands_steps))]
pub fn next_token_by(table: &WordTable, text: &[u8], from: usize) -> Result<Token, NoToken>
    ensures { standing_of result ≡ token_by table.now text.now from }
{
    match read_token_by(table, text, from) {
        Ok(token) => Ok(token),
        Err(refusal) => {
            let start = skip_spaces(text, from);
            let next = match refusal {
                Refusal::UnknownWord => word_end(text, start),
                _ => start,
            };
            Err(NoToken {
                refusal,
                start,
                size: next - start,
                next,
            })
        }
    }
}

// The token at or behind a place; or what is none, and where it stands.
#[tactic(auto, using(crate::proofs::Rules::table_steps), unfolding(crate::specs::Edges::edges))]
pub fn next_token(text: &[u8], from: usize) -> Result<Token, NoToken>
    ensures { standing_of result ≡ token_at text.now from }
{
    next_token_by(&EDGES, text, from)
}
