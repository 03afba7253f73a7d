//! Rows in halves, as rows: soundness is asked of them as they stand.
ghost use Rattle.std.specs.Prelude.{◌*◌};

use crate::HALF_ROW_WORDS;
use datatype::KeptRows;
use datatype::rows::{NUMBER, ROW_WORDS};

// How many values a half word has.
pub(crate) const HALF_VALUES: u32 = 65_536;

/// Rows in 16-bit words, thirteen to a row; half words left over from thirteens are no row.
#[derive(Clone, Copy)]
pub struct Halves<'a> {
    pub halves: &'a [u16],
}

impl KeptRows for Halves<'_> {
    ghost use Rattle.half_rows.specs.HalfRows.{unhalved};

    ghost words = { λ h. unhalved h.halves.now };

    #[tactic(auto, using(crate::proofs::HalfLaws::counted))]
    fn word_count(self) -> usize {
        self.halves.len() / HALF_ROW_WORDS * ROW_WORDS
    }

    #[tactic(auto, using(crate::proofs::HalfLaws::counted))]
    fn count(self) -> usize {
        self.halves.len() / HALF_ROW_WORDS
    }

    // Word 4 stands in two halves, and what stands after it one place on.
    #[tactic(auto, using(crate::proofs::HalfLaws::worded))]
    fn word(self, i: usize, k: usize) -> u32 {
        let at = HALF_ROW_WORDS * i + k;
        let halves = self.halves;
        if k < NUMBER {
            return u32::from(halves[at]);
        }
        if k == NUMBER {
            return u32::from(halves[at]) + HALF_VALUES * u32::from(halves[at + 1]);
        }
        u32::from(halves[at + 1])
    }
}
