// Kinds of types, the units of a kind of time, and the numbers of a decimal.
ghost use Rattle.std.specs.Prelude.{◌≡◌};
ghost use Rattle.datatype.specs.Kind.{is_word, unit_fits, max_precision, decimal_fits};

// The kinds, by their place in the Rust's `DataType`: numbers and no enum, since a row's word 0 is one, and C lends rows.
pub const NULL: u32 = 0;

pub const BOOLEAN: u32 = 1;

pub const INT8: u32 = 2;

pub const INT16: u32 = 3;

pub const INT32: u32 = 4;

pub const INT64: u32 = 5;

pub const UINT8: u32 = 6;

pub const UINT16: u32 = 7;

pub const UINT32: u32 = 8;

pub const UINT64: u32 = 9;

pub const FLOAT16: u32 = 10;

pub const FLOAT32: u32 = 11;

pub const FLOAT64: u32 = 12;

pub const TIMESTAMP: u32 = 13;

pub const DATE32: u32 = 14;

pub const DATE64: u32 = 15;

pub const TIME32: u32 = 16;

pub const TIME64: u32 = 17;

pub const DURATION: u32 = 18;

pub const INTERVAL: u32 = 19;

pub const BINARY: u32 = 20;

pub const FIXED_SIZE_BINARY: u32 = 21;

pub const LARGE_BINARY: u32 = 22;

pub const BINARY_VIEW: u32 = 23;

pub const UTF8: u32 = 24;

pub const LARGE_UTF8: u32 = 25;

pub const UTF8_VIEW: u32 = 26;

pub const LIST: u32 = 27;

pub const LIST_VIEW: u32 = 28;

pub const FIXED_SIZE_LIST: u32 = 29;

pub const LARGE_LIST: u32 = 30;

pub const LARGE_LIST_VIEW: u32 = 31;

pub const STRUCT: u32 = 32;

pub const UNION: u32 = 33;

pub const DICTIONARY: u32 = 34;

pub const DECIMAL32: u32 = 35;

pub const DECIMAL64: u32 = 36;

pub const DECIMAL128: u32 = 37;

pub const DECIMAL256: u32 = 38;

pub const MAP: u32 = 39;

pub const RUN_END_ENCODED: u32 = 40;

// How many kinds there are.
pub const KINDS: u32 = 41;

// Whether a kind takes a unit: Time32 s and ms, Time64 µs and ns, the others all.
#[tactic(auto, unfolding(crate::specs::Kind::unit_fits))]
pub fn unit_fits(kind: u32, unit: u32) -> bool
    ensures { result ≡ unit_fits kind unit }
{
    match kind {
        TIME32 => unit < 2,
        TIME64 => 2 <= unit,
        _ => true,
    }
}

// Whether a type of a kind is written by its word alone.
#[tactic(auto, using(crate::proofs::KindShapes::by_shape), unfolding(crate::specs::Kind::is_word))]
pub fn is_word(kind: u32) -> bool
    ensures { result ≡ is_word kind }
{
    !matches!(
        kind,
        TIMESTAMP
            | TIME32
            | TIME64
            | DURATION
            | INTERVAL
            | FIXED_SIZE_BINARY
            | LIST
            | LIST_VIEW
            | FIXED_SIZE_LIST
            | LARGE_LIST
            | LARGE_LIST_VIEW
            | STRUCT
            | UNION
            | DICTIONARY
            | DECIMAL32
            | DECIMAL64
            | DECIMAL128
            | DECIMAL256
            | MAP
            | RUN_END_ENCODED
    )
}

// A decimal's precision, and its scale plus 128.
#[derive(Clone, Copy)]
pub struct Decimal {
    pub precision: u32,
    pub scale: u32,
}

impl Decimal {
    pub const DECIMAL32_MAX_PRECISION: u32 = 9;

    pub const DECIMAL64_MAX_PRECISION: u32 = 18;

    pub const DECIMAL128_MAX_PRECISION: u32 = 38;

    pub const DECIMAL256_MAX_PRECISION: u32 = 76;

    // The greatest precision of a decimal kind; 0 for every other kind, as its definition has it, and no `Option`: no
    // precision is at most 0, so `fits` asks no more.
    #[tactic(auto, using(crate::proofs::KindLaws::max_by))]
    pub fn max_precision(kind: u32) -> u32
        ensures { result ≡ max_precision kind }
    {
        match kind {
            DECIMAL32 => Self::DECIMAL32_MAX_PRECISION,
            DECIMAL64 => Self::DECIMAL64_MAX_PRECISION,
            DECIMAL128 => Self::DECIMAL128_MAX_PRECISION,
            DECIMAL256 => Self::DECIMAL256_MAX_PRECISION,
            _ => 0,
        }
    }

    // Whether precision and scale are those of a decimal kind.
    #[tactic(auto, unfolding(crate::specs::Kind::decimal_fits))]
    pub fn fits(self, kind: u32) -> bool
        ensures { result ≡ decimal_fits kind self.precision self.scale }
    {
        1 <= self.precision
            && self.precision <= Self::max_precision(kind)
            && self.scale.saturating_sub(128) <= self.precision
    }
}
