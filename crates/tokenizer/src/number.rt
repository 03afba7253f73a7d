// Numbers of signed 64 bits: a sign, and decimal digits.
ghost use Rattle.std.specs.Prelude.{◌≡◌};
ghost use Rattle.tokenizer.specs.Answer.{number_of, answer_of};
ghost use Rattle.tokenizer.specs.Token.{number_kind, word_kind};
ghost use Rattle.tokenizer.specs.Internal.Digits.{BeginsNumber, limit};

use crate::{Refusal, TokenKind};

// The greatest magnitude, with a minus sign before it or not.
fn limit(negative: bool) -> u64
    ensures { result ≡ limit negative }
{
    i64::MAX as u64 + u64::from(negative)
}

// A number above this is too large with one digit more.
const TENTH: u64 = i64::MAX as u64 / 10;

// The token of a sign and digits. Digit by digit: by `parse::<i64>`, which wants a `str`, a text of decimals takes a third more
// instructions to read.
#[tactic(auto, using(crate::proofs::Rules::digit_steps))]
fn number_kind(digits: &[u8], negative: bool) -> Result<TokenKind, Refusal>
    ensures { answer_of number_of result ≡ number_kind negative digits.now }
{
    let mut magnitude: u64 = 0;
    for digit in digits {
        if !digit.is_ascii_digit() || TENTH < magnitude {
            return Err(Refusal::UnknownWord);
        }
        magnitude = magnitude * 10 + (*digit - b'0') as u64;
    }
    if digits.is_empty() || limit(negative) < magnitude {
        return Err(Refusal::UnknownWord);
    }
    Ok(TokenKind::Integer(negative, magnitude))
}

// The number that a word is, which begins with a digit or a minus sign.
#[tactic(auto, using(crate::proofs::Rules::sign_steps))]
pub(crate) fn parse_integer(word: &[u8]) -> Result<TokenKind, Refusal>
    requires { BeginsNumber word.now }
    ensures { answer_of number_of result ≡ word_kind word.now }
{
    if word[0] == b'-' {
        return number_kind(&word[1..], true);
    }
    number_kind(word, false)
}
