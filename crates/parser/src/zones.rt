// A timestamp's zone, behind the unit.
ghost use Rattle.std.specs.Prelude.{◌≡◌};
ghost use Rattle.parser.specs.Answer.{read_answer};
ghost use Rattle.parser.specs.Parse.{some_zone, zone_string, zone_at};
ghost use Rattle.parser.specs.Internal.Steps.{zone_of};

use crate::tokens::make_error_expected;
use crate::{Parser, ReadError, Span};
use tokenizer::TokenKind;

impl<'a> Parser<'a> {
    // A zone in `Some(..)`, behind the word.
    #[tactic(auto, using(crate::proofs::Rules::some_steps))]
    fn parse_some(&self, at: usize) -> Result<Span, ReadError>
        ensures { read_answer result ≡ zone_of (some_zone self.now.text.now at) }
    {
        let open = self.expect_token(at, b'(')?;
        let zone = self.parse_double_quoted_string(open)?;
        let next = self.expect_token(zone.next, b')')?;
        Ok(Span { next, ..zone })
    }

    // A timestamp's zone behind the comma: a string, `Some(string)` or `None`.
    #[tactic(auto, using(crate::proofs::Rules::zone_string_steps))]
    fn parse_zone_string(&self, at: usize) -> Result<Span, ReadError>
        ensures { read_answer result ≡ zone_of (zone_string self.now.text.now at) }
    {
        let token = self.next_token(at)?;
        match token.kind {
            TokenKind::None => Ok(Span {
                start: 0,
                size: 0,
                next: token.next,
            }),
            TokenKind::Some => self.parse_some(token.next),
            TokenKind::DoubleQuotedString => Ok(Span {
                start: token.start,
                size: token.size,
                next: token.next,
            }),
            _ => Err(make_error_expected(token)),
        }
    }

    // What follows a timestamp's unit: the closing mark, or a comma, a zone and the closing mark.
    #[tactic(auto, using(crate::proofs::Rules::zone_steps))]
    pub(crate) fn parse_zone(&self, at: usize) -> Result<Span, ReadError>
        ensures { read_answer result ≡ zone_of (zone_at self.now.text.now at) }
    {
        if let Some(next) = self.next_if(at, b')') {
            return Ok(Span {
                start: 0,
                size: 0,
                next,
            });
        }
        let comma = self.expect_token(at, b',')?;
        let zone = self.parse_zone_string(comma)?;
        let next = self.expect_token(zone.next, b')')?;
        Ok(Span { next, ..zone })
    }
}
