// What each kind asks of a row's numbers, and where its children stand.
ghost use Rattle.std.specs.Prelude.{◌≡◌};
ghost use Rattle.datatype.specs.Kind.{shape_of};
ghost use Rattle.row_table.specs.Sound.{rules_of};
ghost use Rattle.row_table.specs.Internal.Check.{standing_of, below_of, is_decimal, numbers_fit};

use datatype::Decimal;
use datatype::kind::{
    DECIMAL32, DECIMAL256, DICTIONARY, DURATION, FIXED_SIZE_BINARY, FIXED_SIZE_LIST, INTERVAL, MAP,
    TIME32, TIME64, TIMESTAMP, UNION, unit_fits,
};

// Where a row stands: bare (the root, a dictionary's key and value), as a field, or as a field of a union.
#[derive(Clone, Copy)]
pub(crate) enum Standing {
    Bare,
    Field,
    UnionField,
}

// How many sizes a fixed-size kind may have: those of the Rust's `i32` that are not negative.
const SIZES: u32 = 1 << 31;

// Whether a kind is one of the four decimals.
#[tactic(auto, unfolding(crate::specs::Internal::Check::is_decimal))]
fn is_decimal(kind: u32) -> bool
    ensures { result ≡ is_decimal kind }
{
    matches!(kind, DECIMAL32..=DECIMAL256)
}

// How many values word 4 has in rows of a kind.
#[tactic(auto, using(datatype::proofs::KindShapes::by_shape), unfolding(crate::specs::Sound::rules_of))]
fn params(kind: u32) -> u32
    ensures { result ≡ (rules_of (shape_of kind)).params }
{
    match kind {
        TIMESTAMP | TIME32 | TIME64 | DURATION => 4,
        INTERVAL => 3,
        FIXED_SIZE_BINARY | FIXED_SIZE_LIST => SIZES,
        DECIMAL32..=DECIMAL256 => 256,
        UNION | MAP => 2,
        _ => 1,
    }
}

// Whether words 4 and 5 are those of a kind.
#[tactic(auto, using(crate::proofs::RuleLaws::numbers))]
pub(crate) fn numbers_fit(kind: u32, param: u32, scale: u32) -> bool
    ensures { result ≡ numbers_fit kind param scale }
{
    // Most rows are of the first kinds, which have no numbers: told first, a tree of them takes nearly a fifth fewer
    // instructions.
    if kind < TIMESTAMP {
        return param == 0 && scale == 0;
    }
    if is_decimal(kind) {
        let precision = param;
        return Decimal { precision, scale }.fits(kind);
    }
    // Most other kinds have none either: told here, 64 lists in one another take 5 in 100 fewer.
    let values = params(kind);
    if values == 1 {
        return param == 0 && scale == 0;
    }
    param < values && scale == 0 && unit_fits(kind, param)
}

// The standing of a kind's children.
#[tactic(auto, using(datatype::proofs::KindShapes::by_shape), unfolding(crate::specs::Sound::rules_of))]
pub(crate) fn below(kind: u32) -> Standing
    ensures { standing_of result ≡ below_of kind }
{
    match kind {
        DICTIONARY => Standing::Bare,
        UNION => Standing::UnionField,
        _ => Standing::Field,
    }
}
