// How a word becomes a token: a number, or one of the words of a table, found by a walk (specs/WordTable.antt).
ghost use Rattle.std.specs.Prelude.{◌≡◌, false, ◌+◌, ◌/◌, ◌<◌, ◌≤◌, length, drop, get_or};
ghost use Rattle.tokenizer.specs.Answer.{number_of, answer_of};
ghost use Rattle.tokenizer.specs.Token.{token, token_or_refusal, is_separator, word_of, word_kind};
ghost use Rattle.tokenizer.specs.WordTable.{ending, token_of_number, walk_kind, word_kind_by};
ghost use Rattle.tokenizer.specs.Internal.Digits.{BeginsNumber};

use crate::edges::{PLACES, WordTable};
use crate::number::parse_integer;
use crate::tokenizer::{is_separator, token_of, word_end};
use crate::{Refusal, Token, TokenKind};

// An edge is HALF * d + byte: it leads to the state d + byte, and at a word's end d is the number of the token. A table of
// numbers that is walked by hand, and no map or `match`: document 02 [8] asks for it.
const HALF: u16 = 256;

// The byte whose edge is a word's end: no word holds it.
const SPACE: u16 = 32;

// The token with a number.
#[tactic(auto, unfolding(crate::specs::WordTable::token_of_number))]
fn token_of_number(number: u16) -> Result<TokenKind, Refusal>
    ensures { answer_of number_of result ≡ token_of_number number }
{
    let n = number as u32;
    match n {
        1..=41 => Ok(TokenKind::DataType(n - 1)),
        42..=45 => Ok(TokenKind::TimeUnit(n - 42)),
        46..=48 => Ok(TokenKind::IntervalUnit(n - 46)),
        49..=50 => Ok(TokenKind::UnionMode(n - 49)),
        51..=52 => Ok(TokenKind::MapSorted(n - 51)),
        53..=54 => Ok(TokenKind::Nullability(n - 52)),
        55 => Ok(TokenKind::Field),
        56 => Ok(TokenKind::Some),
        57 => Ok(TokenKind::None),
        58 => Ok(TokenKind::X),
        _ => Err(Refusal::UnknownWord),
    }
}

// The token of a word that ends in a state.
#[tactic(auto, unfolding(crate::specs::WordTable::ending, crate::specs::WordTable::token_of_number))]
fn end_kind(table: &WordTable, state: usize) -> Result<TokenKind, Refusal>
    requires { state ≤ 510 }
    ensures { answer_of number_of result ≡ token_of_number (ending table.now state) }
{
    let place = state + (SPACE as usize);
    if place >= PLACES {
        return Err(Refusal::UnknownWord);
    }
    let e = table[place];
    if e % HALF != SPACE {
        return Err(Refusal::UnknownWord);
    }
    token_of_number(e / HALF)
}

// The state behind a byte whose edge leads on.
fn state_behind(e: u16, b: u8) -> usize
    ensures { (result ≡ e / 256 + b) × (result ≤ 510) }
{
    (e / HALF) as usize + (b as usize)
}

// The word at a place by a walk through the table: on to the separator behind it, or to a byte that no edge takes. That the
// place is inside the text stands in four contracts, here and in tokenizer.rt: a struct that says so would be made at one
// place, in `next_token_by`, where the place has just been compared with the text's length.
#[tactic(auto, using(crate::proofs::Rules::walk_steps))]
fn walk_word(table: &WordTable, text: &[u8], at: usize) -> Result<Token, Refusal>
    requires { at < length text.now }
    ensures { answer_of number_of result ≡ token_or_refusal (token (walk_kind table.now (word_of (drop at text.now))) at (length (word_of (drop at text.now)))) }
{
    let mut state = 0;
    for i in at..text.len() {
        let b = text[i];
        if is_separator(b) {
            return Ok(token_of(end_kind(table, state)?, at, i - at));
        }
        let place = state + (b as usize);
        if place >= PLACES {
            return Err(Refusal::UnknownWord);
        }
        let e = table[place];
        if e % HALF != (b as u16) {
            return Err(Refusal::UnknownWord);
        }
        state = state_behind(e, b);
    }
    Ok(token_of(end_kind(table, state)?, at, text.len() - at))
}

// The number that starts at a place.
#[tactic(auto, using(crate::proofs::Rules::number_steps))]
fn number_token(text: &[u8], at: usize) -> Result<Token, Refusal>
    requires { (at < length text.now) × BeginsNumber (word_of (drop at text.now)) }
    ensures { answer_of number_of result ≡ token_or_refusal (token (word_kind (word_of (drop at text.now))) at (length (word_of (drop at text.now)))) }
{
    let end = word_end(text, at);
    let kind = parse_integer(&text[at..end])?;
    Ok(token_of(kind, at, end - at))
}

// The word that starts at a place.
#[tactic(auto, using(crate::proofs::Rules::word_steps), unfolding(crate::specs::WordTable::word_kind_by, crate::specs::Token::word_kind, crate::specs::Token::is_digit))]
pub(crate) fn word_token(table: &WordTable, text: &[u8], at: usize) -> Result<Token, Refusal>
    requires { (at < length text.now) × (is_separator (get_or text.now at 0) ≡ false) }
    ensures { answer_of number_of result ≡ token_or_refusal (token (word_kind_by table.now (word_of (drop at text.now))) at (length (word_of (drop at text.now)))) }
{
    let first = text[at];
    if first == b'-' {
        return number_token(text, at);
    }
    if first.is_ascii_digit() {
        return number_token(text, at);
    }
    walk_word(table, text, at)
}
