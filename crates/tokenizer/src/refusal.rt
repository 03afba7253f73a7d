// The refusals of the reader and the printer, one for each of their numbers, and what every crate's errors have.
ghost use Rattle.std.specs.Prelude.{◌≡◌, ℕ, IsTrue};
ghost use Rattle.std.proofs.Common.{rules};
ghost use Rattle.tokenizer.specs.Answer.{is_number, number_of};

use thiserror::Error;

/// An error that is one of the numbers of docs/SCOPE.md, 'Numbers a caller may get', as callers from C and the line program
/// get it. A method and no `From`: it is that number, and the definitions have a word for it.
pub trait Numbered {
    ghost numbered: { Self → ℕ };

    /// The number.
    fn number(self) -> u32
        ensures { result ≡ numbered self };

    ghost listed: { (e : Self) → IsTrue (is_number (numbered e)) };
}

/// Why a text is not read or a tree not printed.
#[derive(Clone, Copy, Debug, Drop, PartialEq, Eq, Error)]
pub enum Refusal {
    // Of the reader: the first two come first, then the first that is met from left to right.
    #[error("the text is longer than 16,384 bytes")]
    TextTooLong = 1,
    #[error("the text is not UTF-8")]
    NotUtf8 = 2,
    #[error("types are nested deeper than 64 levels")]
    TooDeep = 3,
    #[error("there are more types in the text than rows for them")]
    TooManyRows = 4,
    #[error("the text ends where more is needed")]
    TextEnds = 5,
    #[error("a quoted string never ends")]
    StringNeverEnds = 6,
    #[error("a quoted string is empty")]
    StringEmpty = 7,
    #[error("a word is neither known nor a number of 64 bits")]
    UnknownWord = 8,
    #[error("a token stands where one of another sort is needed")]
    UnexpectedToken = 9,
    #[error("a number is outside its range")]
    NumberOutOfRange = 10,
    #[error("Time32 takes s or ms, and Time64 takes us or ns")]
    WrongTimeUnit = 11,
    #[error("a decimal's precision or scale is not one that it may have")]
    WrongDecimal = 12,
    #[error("Map entries, Map keys and run ends must be non-null")]
    MustBeNonNull = 13,
    #[error("Map entries must be a Struct of two fields")]
    WrongMapEntries = 14,
    #[error("a union id is negative or used twice")]
    WrongUnionId = 15,
    #[error("something follows the type")]
    TrailingText = 16,
    // Of the printer, in this order.
    #[error("text and rows are no sound tree")]
    NotSound = 17,
    #[error("a name or zone to print in double quotes has a character above U+017F")]
    NotLatin = 18,
    #[error("the printed text is longer than 16,384 bytes or the buffer")]
    PrintTooLong = 19,
}

impl Numbered for Refusal {
    ghost numbered = { number_of };

    ghost listed = { Prim.search rules };

    fn number(self) -> u32 {
        self as u32
    }
}
