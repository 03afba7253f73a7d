// Tokens of a type text: the work of the Rust's `Tokenizer`.

#![tactic(auto)]

ghost use Rattle.std.specs.Prelude.{◌≡◌};
ghost use Rattle.tokenizer.specs.Answer.{done};
ghost use Rattle.tokenizer.specs.Token.{place_of};

mod edges;
mod number;
mod refusal;
mod tokenizer;
mod utf8;
mod words;

pub use edges::{EDGES, WordTable};
pub use refusal::{Numbered, Refusal};
pub use tokenizer::{
    is_separator, next_byte, next_token, next_token_by, read_token, skip_spaces, word_end,
};
pub use utf8::is_utf8;

// What a token is. Kinds, units, modes and roles are numbers, as they stand in the words of rows, which C reads and writes.
#[derive(Clone, Copy)]
pub enum TokenKind {
    LParen,
    RParen,
    Comma,
    Colon,
    // A number of signed 64 bits: whether a minus sign stands before it, and its magnitude.
    Integer(bool, u64),
    DoubleQuotedString,
    SingleQuotedString,
    // The kind of a type, in the order of the Rust's `DataType`.
    DataType(u32),
    TimeUnit(u32),
    IntervalUnit(u32),
    UnionMode(u32),
    MapSorted(u32),
    // The role that a nullability word gives: 1 for `nullable`, 2 for `non-null`.
    Nullability(u32),
    Field,
    Some,
    None,
    X,
}

// A token, where it starts, how long it is, and the place behind it. Start and length of a quoted string are those of
// the bytes between its marks.
#[derive(Clone, Copy)]
pub struct Token {
    pub kind: TokenKind,
    pub start: usize,
    pub size: usize,
    pub next: usize,
}

// What is no token: why, where it would start, how long it is, and the place behind it. An unknown word has its length and is
// passed; all else has none, and would begin at that place.
#[derive(Clone, Copy)]
pub struct NoToken {
    pub refusal: Refusal,
    pub start: usize,
    pub size: usize,
    pub next: usize,
}

impl Token {
    // Its place, which is its first byte: of a quoted string, the opening mark.
    pub fn place(self) -> usize
        ensures { result ≡ place_of (done self.kind) self.start }
    {
        match self.kind {
            TokenKind::DoubleQuotedString | TokenKind::SingleQuotedString => {
                self.start.saturating_sub(1)
            }
            _ => self.start,
        }
    }
}
