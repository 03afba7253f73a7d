// Names and zones packed into a text of their own: how much is packed, and a packer of what rows say.

#![tactic(auto)]

ghost use Rattle.std.specs.Prelude.{◌≡◌};
ghost use Rattle.packing.specs.Packed.{size_fits};

mod packer;

use datatype::rows::{MAX_TEXT, rows_lent};
pub use packer::Packer;

/// How many rows a packed tree has, and how many bytes its packed text.
#[derive(Clone, Copy, Debug, PartialEq, Eq)]
pub struct Packed {
    pub rows: usize,
    pub bytes: usize,
}

impl Packed {
    /// Whether it has room in lent rows of so many words and in a lent text of so many bytes, of which 16,384 count.
    #[tactic(auto, unfolding(crate::specs::Packed::size_fits))]
    pub fn fits(self, words: usize, bytes: usize) -> bool
        ensures { result ≡ size_fits self words bytes }
    {
        self.rows <= rows_lent(words) && self.bytes <= bytes.min(MAX_TEXT)
    }
}
