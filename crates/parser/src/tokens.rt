// One token where it is needed or looked for: the small functions of the Rust's `Parser`.
ghost use Rattle.std.specs.Prelude.{◌≡◌, ◌≤◌, true};
ghost use Rattle.tokenizer.specs.Answer.{done};
ghost use Rattle.tokenizer.specs.declared.refusal.Refusal.TheVariants.{UnexpectedToken};
ghost use Rattle.parser.specs.Answer.{refusal_in, read_answer};
ghost use Rattle.tokenizer.specs.Token.{token_at, place_of, signed, integer, double_quoted, single_quoted, type_word, time_unit, interval_unit, union_mode, map_sorted, field_word, x_word};
ghost use Rattle.tokenizer.specs.Internal.Digits.{limit};
ghost use Rattle.parser.specs.Parse.{place_at, mark_before, role_place, word_place, last_token, need, role_at, after_role, number_in, length_at, precision_at, signed_byte_at, stands};
ghost use Rattle.parser.specs.Internal.Steps.{taken, refused_here, mark_sort, is_mark, next_of, look_of, word_of, integer_of, span_of};

use crate::{Parser, ReadError, ReadValue, Span};
use datatype::kind::is_word;
use datatype::rows::NULLABLE;
use tokenizer::{Refusal, Token, TokenKind};

// The Rust's `make_error_expected`: a token that was taken is of another sort.
pub(crate) fn make_error_expected(token: Token) -> ReadError
    ensures { result ≡ record { place = place_of (done token.kind) token.start; refusal = UnexpectedToken } }
{
    ReadError {
        place: token.place(),
        refusal: Refusal::UnexpectedToken,
    }
}

// The place of the mark that ends at a place.
pub(crate) fn mark_before(next: usize) -> usize
    ensures { result ≡ mark_before next }
{
    next.saturating_sub(1)
}

// ---- places of refusals, looked for where a text is refused: what is accepted needs none

impl<'a> Parser<'a> {
    // The place of the token at or behind a place.
    #[tactic(auto, using(crate::proofs::Places::place_spaces))]
    fn place_at(&self, at: usize) -> usize
        ensures { result ≡ place_at self.now.text.now at }
    {
        tokenizer::skip_spaces(self.text, at)
    }

    // The Rust's `make_error`: the token at or behind a place is refused.
    pub(crate) fn make_error(&self, refusal: Refusal, at: usize) -> ReadError
        ensures { result ≡ record { place = place_at self.now.text.now at; refusal = refusal } }
    {
        ReadError {
            place: self.place_at(at),
            refusal,
        }
    }

    // The place of nullability, or of the mark before it where it is left out.
    #[tactic(auto, using(crate::proofs::Places::role_left, crate::proofs::Places::role_there))]
    pub(crate) fn role_place(&self, at: usize) -> usize
        ensures { result ≡ role_place self.now.text.now at }
    {
        if self.parse_opt_nullable(at).next == at {
            return mark_before(at);
        }
        self.place_at(at)
    }

    // The place of the word of a field's type, looked for from the field's start.
    #[tactic(auto, using(crate::proofs::Rules::word_place_steps))]
    fn word_place(&self, at: usize) -> Result<usize, ReadError>
        ensures { read_answer result ≡ word_place self.now.text.now at }
    {
        let name = self.parse_double_quoted_string(at)?;
        let colon = self.expect_token(name.next, b':')?;
        let null = self.parse_opt_nullable(colon);
        Ok(self.place_at(null.next))
    }

    // The place of the last token of a field whose type has a kind and ends at a place.
    #[tactic(auto, unfolding(crate::specs::Parse::last_token))]
    pub(crate) fn last_token(&self, at: usize, kind: u32, next: usize) -> Result<usize, ReadError>
        ensures { read_answer result ≡ last_token self.now.text.now at kind next }
    {
        if is_word(kind) {
            return self.word_place(at);
        }
        Ok(mark_before(next))
    }
}

impl<'a> Parser<'a> {
    // The token at or behind a place. It is made part of its callers: with a call, 11 columns take 14 in 1,000 more instructions.
    #[inline(always)]
    #[tactic(auto, using(crate::proofs::Places::token_placed, crate::proofs::Places::refusal_placed))]
    pub(crate) fn next_token(&self, at: usize) -> Result<Token, ReadError>
        ensures { read_answer result ≡ taken (token_at self.now.text.now at) }
    {
        match tokenizer::read_token(self.text, at) {
            Ok(token) => Ok(token),
            Err(refusal) => Err(self.make_error(refusal, at)),
        }
    }

    // What stands at or behind a place is refused: a token of another sort than is needed, or none.
    #[tactic(auto, using(crate::proofs::TokenLaws::unexpected_is, crate::proofs::TokenLaws::none_is))]
    fn unexpected(&self, at: usize) -> ReadError
        ensures { refusal_in result ≡ refused_here (token_at self.now.text.now at) }
    {
        match self.next_token(at) {
            Ok(token) => make_error_expected(token),
            Err(error) => error,
        }
    }

    // A mark is needed.
    #[tactic(auto, using(crate::proofs::Rules::expect_token_steps))]
    pub(crate) fn expect_token(&self, at: usize, mark: u8) -> Result<usize, ReadError>
        requires { is_mark mark ≡ true }
        ensures { read_answer result ≡ next_of (need self.now.text.now (mark_sort mark) at) }
    {
        let Some(next) = tokenizer::next_byte(self.text, at, mark) else {
            return Err(self.unexpected(at));
        };
        Ok(next)
    }

    // A mark is looked for, and taken if it is there.
    #[tactic(auto, using(crate::proofs::TokenLaws::look_byte))]
    pub(crate) fn next_if(&self, at: usize, mark: u8) -> Option<usize>
        requires { is_mark mark ≡ true }
        ensures { result ≡ look_of (need self.now.text.now (mark_sort mark) at) }
    {
        tokenizer::next_byte(self.text, at, mark)
    }

    // Nullability, which may be left out. Both of its words begin with an n, so that the word of a type is not read twice.
    #[tactic(auto, using(crate::proofs::Rules::nullability_steps))]
    pub(crate) fn parse_opt_nullable(&self, at: usize) -> ReadValue<u32>
        ensures role { result.value ≡ role_at self.now.text.now at }
        ensures next { result.next ≡ after_role self.now.text.now at }
    {
        let left_out = ReadValue {
            value: NULLABLE,
            next: at,
        };
        let Some(_) = tokenizer::next_byte(self.text, at, b'n') else {
            return left_out;
        };
        let Ok(token) = self.next_token(at) else {
            return left_out;
        };
        let TokenKind::Nullability(value) = token.kind else {
            return left_out;
        };
        ReadValue {
            value,
            next: token.next,
        }
    }

    // Whether a whole, non-empty double-quoted string is next.
    #[tactic(auto, using(crate::proofs::Rules::peek_double_quoted_steps))]
    pub(crate) fn peek_double_quoted(&self, at: usize) -> bool
        ensures { result ≡ stands self.now.text.now double_quoted at }
    {
        let Ok(token) = self.next_token(at) else {
            return false;
        };
        let TokenKind::DoubleQuotedString = token.kind else {
            return false;
        };
        true
    }

    // The eight readers of a string, a word or a number differ in a variant, which is no value. One for all would take the
    // number of a sort, as the definition does, and compare a kind's with it: numbers in place of the enum.

    // A double-quoted string is needed.
    #[tactic(auto, using(crate::proofs::Rules::string_steps))]
    pub(crate) fn parse_double_quoted_string(&self, at: usize) -> Result<Span, ReadError>
        ensures { read_answer result ≡ span_of (need self.now.text.now double_quoted at) }
    {
        let token = self.next_token(at)?;
        let TokenKind::DoubleQuotedString = token.kind else {
            return Err(make_error_expected(token));
        };
        Ok(Span {
            start: token.start,
            size: token.size,
            next: token.next,
        })
    }

    // A single-quoted string is needed.
    #[tactic(auto, using(crate::proofs::Rules::string_steps))]
    pub(crate) fn parse_single_quoted_string(&self, at: usize) -> Result<Span, ReadError>
        ensures { read_answer result ≡ span_of (need self.now.text.now single_quoted at) }
    {
        let token = self.next_token(at)?;
        let TokenKind::SingleQuotedString = token.kind else {
            return Err(make_error_expected(token));
        };
        Ok(Span {
            start: token.start,
            size: token.size,
            next: token.next,
        })
    }

    // The word of a type is needed.
    #[tactic(auto, using(crate::proofs::Rules::word_steps))]
    pub(crate) fn parse_type_word(&self, at: usize) -> Result<ReadValue<u32>, ReadError>
        ensures { read_answer result ≡ word_of (need self.now.text.now type_word at) }
    {
        let token = self.next_token(at)?;
        let TokenKind::DataType(value) = token.kind else {
            return Err(make_error_expected(token));
        };
        Ok(ReadValue {
            value,
            next: token.next,
        })
    }

    #[tactic(auto, using(crate::proofs::Rules::word_steps))]
    pub(crate) fn parse_time_unit(&self, at: usize) -> Result<ReadValue<u32>, ReadError>
        ensures { read_answer result ≡ word_of (need self.now.text.now time_unit at) }
    {
        let token = self.next_token(at)?;
        let TokenKind::TimeUnit(value) = token.kind else {
            return Err(make_error_expected(token));
        };
        Ok(ReadValue {
            value,
            next: token.next,
        })
    }

    #[tactic(auto, using(crate::proofs::Rules::word_steps))]
    pub(crate) fn parse_interval_unit(&self, at: usize) -> Result<ReadValue<u32>, ReadError>
        ensures { read_answer result ≡ word_of (need self.now.text.now interval_unit at) }
    {
        let token = self.next_token(at)?;
        let TokenKind::IntervalUnit(value) = token.kind else {
            return Err(make_error_expected(token));
        };
        Ok(ReadValue {
            value,
            next: token.next,
        })
    }

    #[tactic(auto, using(crate::proofs::Rules::word_steps))]
    pub(crate) fn parse_union_mode(&self, at: usize) -> Result<ReadValue<u32>, ReadError>
        ensures { read_answer result ≡ word_of (need self.now.text.now union_mode at) }
    {
        let token = self.next_token(at)?;
        let TokenKind::UnionMode(value) = token.kind else {
            return Err(make_error_expected(token));
        };
        Ok(ReadValue {
            value,
            next: token.next,
        })
    }

    #[tactic(auto, using(crate::proofs::Rules::word_steps))]
    pub(crate) fn parse_map_sorted(&self, at: usize) -> Result<ReadValue<u32>, ReadError>
        ensures { read_answer result ≡ word_of (need self.now.text.now map_sorted at) }
    {
        let token = self.next_token(at)?;
        let TokenKind::MapSorted(value) = token.kind else {
            return Err(make_error_expected(token));
        };
        Ok(ReadValue {
            value,
            next: token.next,
        })
    }

    // The word `field` is needed.
    #[tactic(auto, using(crate::proofs::Rules::expect_field_steps))]
    pub(crate) fn expect_field(&self, at: usize) -> Result<usize, ReadError>
        ensures { read_answer result ≡ next_of (need self.now.text.now field_word at) }
    {
        let token = self.next_token(at)?;
        let TokenKind::Field = token.kind else {
            return Err(make_error_expected(token));
        };
        Ok(token.next)
    }

    // The word `x` is looked for, and taken if it is there.
    #[tactic(auto, using(crate::proofs::Rules::next_if_x_steps))]
    pub(crate) fn next_if_x(&self, at: usize) -> Option<usize>
        ensures { result ≡ look_of (need self.now.text.now x_word at) }
    {
        let token = self.next_token(at).ok()?;
        let TokenKind::X = token.kind else {
            return None;
        };
        Some(token.next)
    }
}

// ---- numbers

// The number that a sign and a magnitude are. Of -0 it is 0; 2^63 is its own negation, and -2^63 as an `i64`.
fn signed(negative: bool, magnitude: u64) -> i64
    requires { magnitude ≤ limit negative }
    ensures { result ≡ signed negative magnitude }
{
    if negative {
        return magnitude.wrapping_neg().cast_signed();
    }
    magnitude.cast_signed()
}

impl<'a> Parser<'a> {
    // A number of signed 64 bits is needed.
    #[tactic(auto, using(crate::proofs::Rules::i64_steps))]
    fn parse_i64(&self, at: usize) -> Result<ReadValue<i64>, ReadError>
        ensures { read_answer result ≡ integer_of (need self.now.text.now integer at) }
    {
        let token = self.next_token(at)?;
        let TokenKind::Integer(negative, magnitude) = token.kind else {
            return Err(make_error_expected(token));
        };
        Ok(ReadValue {
            value: signed(negative, magnitude),
            next: token.next,
        })
    }

    // A number from 0 to most is needed. It is made part of its callers: with a call, a text of 500 decimals takes 3 in 100 more
    // instructions.
    #[inline(always)]
    #[tactic(auto, using(crate::proofs::Rules::unsigned_steps))]
    fn parse_unsigned(&self, at: usize, most: u32) -> Result<ReadValue<u32>, ReadError>
        ensures { read_answer result ≡ word_of (number_in self.now.text.now 0 most at) }
    {
        let number = self.parse_i64(at)?;
        let Ok(value) = u32::try_from(number.value) else {
            return Err(self.make_error(Refusal::NumberOutOfRange, at));
        };
        if value > most {
            return Err(self.make_error(Refusal::NumberOutOfRange, at));
        }
        Ok(ReadValue {
            value,
            next: number.next,
        })
    }

    // The Rust's `parse_i8`: a scale or a union id.
    #[tactic(auto, using(crate::proofs::Rules::i8_steps))]
    pub(crate) fn parse_i8(&self, at: usize) -> Result<ReadValue<i8>, ReadError>
        ensures { read_answer result ≡ integer_of (signed_byte_at self.now.text.now at) }
    {
        let number = self.parse_i64(at)?;
        let Ok(value) = i8::try_from(number.value) else {
            return Err(self.make_error(Refusal::NumberOutOfRange, at));
        };
        Ok(ReadValue {
            value,
            next: number.next,
        })
    }

    // The Rust's `parse_u8`: a precision.
    pub(crate) fn parse_u8(&self, at: usize) -> Result<ReadValue<u32>, ReadError>
        ensures { read_answer result ≡ word_of (precision_at self.now.text.now at) }
    {
        self.parse_unsigned(at, u8::MAX as u32)
    }

    // The Rust's `parse_i32`, of which no negative number is taken: a length.
    pub(crate) fn parse_length(&self, at: usize) -> Result<ReadValue<u32>, ReadError>
        ensures { read_answer result ≡ word_of (length_at self.now.text.now at) }
    {
        self.parse_unsigned(at, i32::MAX as u32)
    }
}
