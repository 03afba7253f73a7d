// Types without children, into a row of their own.
ghost use Rattle.std.specs.Prelude.{◌≡◌};
ghost use Rattle.parser.specs.Answer.{read_answer};
ghost use Rattle.tokenizer.specs.Token.{rparen};
ghost use Rattle.parser.specs.Parse.{bare_row, need, unit_at, timestamp_at, time_at, interval_at, fixed_size_binary_at, scale_at, decimal_at};
ghost use Rattle.parser.specs.Internal.Steps.{Closed, Meets, word_of};

use crate::rows::{Head, PLAIN, put_row};
use crate::tokens::mark_before;
use crate::{Extent, Parser, ReadError, ReadValue};
use datatype::Decimal;
use datatype::kind::unit_fits;
use datatype::rows::ROW_WORDS;
use tokenizer::Refusal;

impl<'a> Parser<'a> {
    #[tactic(auto, using(crate::proofs::Rules::timestamp_steps))]
    pub(crate) fn parse_timestamp(
        &self,
        row: &mut [u32; ROW_WORDS],
        kind: u32,
        at: usize,
    ) -> Result<Extent, ReadError>
        ensures { Meets (timestamp_at self.now.text.now kind at) row.old result row.new }
    {
        let open = self.expect_token(at, b'(')?;
        let unit = self.parse_time_unit(open)?;
        let zone = self.parse_zone(unit.next)?;
        let head = Head {
            kind,
            number: unit.value,
            zone_start: zone.start as u32,
            zone_length: zone.size as u32,
            ..PLAIN
        };
        Ok(put_row(row, 0, head, zone.next))
    }

    // The unit of a kind of time is needed.
    #[tactic(auto, using(crate::proofs::Rules::unit_steps))]
    fn parse_unit(&self, kind: u32, at: usize) -> Result<ReadValue<u32>, ReadError>
        ensures { read_answer result ≡ word_of (unit_at self.now.text.now kind at) }
    {
        let unit = self.parse_time_unit(at)?;
        if unit_fits(kind, unit.value) {
            return Ok(unit);
        }
        Err(self.make_error(Refusal::WrongTimeUnit, at))
    }

    // The mark that closes a type which is its kind and one value, as that of the three below is.
    fn close_value(
        &self,
        row: &mut [u32; ROW_WORDS],
        kind: u32,
        value: ReadValue<u32>,
    ) -> Result<Extent, ReadError>
        ensures { Closed (need self.now.text.now rparen value.next) 0 (bare_row kind value.value 0 0 0) result row.new }
    {
        let head = Head {
            kind,
            number: value.value,
            ..PLAIN
        };
        self.close(row, value.next, 0, head)
    }

    // Time32, Time64 and Duration.
    // It and the two below differ in the reader called: with that as a closure, what each takes would stand in the clauses of
    // a closure and not of a function.
    #[tactic(auto, using(crate::proofs::Rules::value_steps), unfolding(crate::specs::Parse::time_at))]
    pub(crate) fn parse_time(
        &self,
        row: &mut [u32; ROW_WORDS],
        kind: u32,
        at: usize,
    ) -> Result<Extent, ReadError>
        ensures { Meets (time_at self.now.text.now kind at) row.old result row.new }
    {
        let open = self.expect_token(at, b'(')?;
        let unit = self.parse_unit(kind, open)?;
        self.close_value(row, kind, unit)
    }

    #[tactic(auto, using(crate::proofs::Rules::value_steps), unfolding(crate::specs::Parse::interval_at))]
    pub(crate) fn parse_interval(
        &self,
        row: &mut [u32; ROW_WORDS],
        kind: u32,
        at: usize,
    ) -> Result<Extent, ReadError>
        ensures { Meets (interval_at self.now.text.now kind at) row.old result row.new }
    {
        let open = self.expect_token(at, b'(')?;
        let unit = self.parse_interval_unit(open)?;
        self.close_value(row, kind, unit)
    }

    #[tactic(auto, using(crate::proofs::Rules::value_steps), unfolding(crate::specs::Parse::fixed_size_binary_at))]
    pub(crate) fn parse_fixed_size_binary(
        &self,
        row: &mut [u32; ROW_WORDS],
        kind: u32,
        at: usize,
    ) -> Result<Extent, ReadError>
        ensures { Meets (fixed_size_binary_at self.now.text.now kind at) row.old result row.new }
    {
        let open = self.expect_token(at, b'(')?;
        let length = self.parse_length(open)?;
        self.close_value(row, kind, length)
    }

    // A decimal's scale and closing mark, behind which precision and scale are judged.
    #[tactic(auto, using(crate::proofs::Rules::scale_steps))]
    fn parse_scale(
        &self,
        row: &mut [u32; ROW_WORDS],
        kind: u32,
        precision: u32,
        at: usize,
    ) -> Result<Extent, ReadError>
        ensures { Meets (scale_at self.now.text.now kind precision at) row.old result row.new }
    {
        let number = self.parse_i8(at)?;
        let scale = number.as_scale();
        let head = Head {
            kind,
            number: precision,
            scale,
            ..PLAIN
        };
        let closed = self.close(row, number.next, 0, head)?;
        let decimal = Decimal { precision, scale };
        if decimal.fits(kind) {
            return Ok(closed);
        }
        Err(ReadError {
            place: mark_before(closed.next),
            refusal: Refusal::WrongDecimal,
        })
    }

    // The four decimals.
    #[tactic(auto, using(crate::proofs::Rules::decimal_steps))]
    pub(crate) fn parse_decimal(
        &self,
        row: &mut [u32; ROW_WORDS],
        kind: u32,
        at: usize,
    ) -> Result<Extent, ReadError>
        ensures { Meets (decimal_at self.now.text.now kind at) row.old result row.new }
    {
        let open = self.expect_token(at, b'(')?;
        let precision = self.parse_u8(open)?;
        let comma = self.expect_token(precision.next, b',')?;
        self.parse_scale(row, kind, precision.value, comma)
    }
}
