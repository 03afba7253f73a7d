// Kinds of types and their decimals, the words of a row, and names and zones handed back.

#![tactic(auto)]

mod field;
mod kept;
pub mod kind;
mod label;
mod row;
pub mod rows;
mod tree;
mod words;

pub use field::{Field, equal_bytes, zone};
pub use kept::KeptRows;
pub use kind::Decimal;
pub use label::Label;
pub use row::Row;
pub use tree::Tree;
pub use words::{clear_words, equal_words};
