// Printing and reading back: demand 3, its laws, and worked examples of reader and printer together.

#![tactic(auto)]

use parser::ReadError;
use tokenizer::Refusal;

// A tree that was printed and read back: the printed length and the row count.
#[derive(Clone, Copy, Debug, PartialEq, Eq)]
pub struct PrintedAndRead {
    pub bytes: usize,
    pub rows: usize,
}

// Why a tree was not read back: the printer's refusal, or the reader's.
#[derive(Clone, Copy, Debug, PartialEq, Eq)]
pub enum NotReadBack {
    NotPrinted(Refusal),
    NotRead(ReadError),
}
