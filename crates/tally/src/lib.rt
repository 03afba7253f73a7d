// The monthly count of column types: lines are read and counted, and the counts reported.

#![tactic(auto)]

ghost use Rattle.std.proofs.Common.{rules};
ghost use Rattle.tally.specs.Tally.{number_of};

mod tally;

pub use tally::{LINES, REPORT_BYTES, Tally};
use thiserror::Error;
use tokenizer::Numbered;

/// Why a line was not counted.
#[derive(Clone, Copy, Debug, Drop, PartialEq, Eq, Error)]
pub enum NotCounted {
    #[error("more than 1,000,000 lines")]
    TooManyLines = 24,
}

impl Numbered for NotCounted {
    ghost numbered = { number_of };

    ghost listed = { Prim.search rules };

    fn number(self) -> u32 {
        self as u32
    }
}
