// Rows packed one behind another into lent rows and a lent text, whoever has what they say.
ghost use Rattle.std.specs.Prelude.{◌≡◌, ◌+◌, ◌*◌, ◌≤◌, length};
ghost use Rattle.datatype.specs.Label.{label_said};
ghost use Rattle.datatype.specs.Limits.{max_text};
ghost use Rattle.datatype.specs.Table.{row_words, words_of};
ghost use Rattle.packing.specs.Packed.{row_text, if_any, packed_row};
ghost use Rattle.packing.specs.Packer.{room_of, row_fits, with_words, with_bytes, put_row, set_subtree, set_parents};

use crate::Packed;
use datatype::rows::{MAX_TEXT, ROW_WORDS, ROWS, rows_lent};
use datatype::{Field, Label};
use unchecked_rows::set_first_parents;
use writer::put_bytes;

/// Lent rows and a lent text that are filled from their starts.
#[derive(Drop)]
pub struct Packer<'a> {
    pub rows: &'a mut [u32],
    pub text: &'a mut [u8],
    /// How much is packed: no rows and no bytes to begin with.
    pub packed: Packed,
}

// A word of a name or a zone: 0 where there is none.
fn if_any(s: &[u8], n: u32) -> u32
    ensures { result ≡ if_any s.now n }
{
    if s.is_empty() { 0 } else { n }
}

// The words of a row, packed at a place of the text over a subtree of so many rows.
#[tactic(auto, unfolding(crate::specs::Packed::packed_row, datatype::specs::Table::words_of))]
fn packed_words(label: Label<'_>, at: usize, subtree: u32) -> [u32; ROW_WORDS]
    requires { at + length (row_text (label_said label)) ≤ max_text }
    ensures { result ≡ words_of (packed_row at (label_said label.entry)) subtree }
{
    [
        label.kind,
        subtree,
        label.role,
        label.union_id,
        label.number,
        label.scale,
        if_any(label.name, Field::IN_TEXT),
        if_any(label.name, at as u32),
        label.name.len() as u32,
        if_any(label.zone, (at + label.name.len()) as u32),
        label.zone.len() as u32,
        // The parent is set once all rows stand.
        0,
    ]
}

impl<'a> Packer<'a> {
    /// How many rows and bytes there is room for behind those that are packed.
    #[tactic(auto, unfolding(crate::specs::Packer::room_of))]
    pub fn room(&self) -> Packed
        ensures { result ≡ room_of self.now }
    {
        Packed {
            rows: rows_lent(self.rows.len()).saturating_sub(self.packed.rows),
            bytes: self
                .text
                .len()
                .min(MAX_TEXT)
                .saturating_sub(self.packed.bytes),
        }
    }

    // Whether a row has room, with its name and its zone.
    fn row_fits(&self, label: Label<'_>) -> bool
        ensures { result ≡ row_fits self.now (label_said label.entry) }
    {
        let name = self.packed.bytes.saturating_add(label.name.len());
        let size = Packed {
            rows: self.packed.rows.saturating_add(1),
            bytes: name.saturating_add(label.zone.len()),
        };
        size.fits(self.rows.len(), self.text.len())
    }

    // Writes the words of a row behind the rows.
    #[tactic(auto, using(crate::proofs::PackerLaws::copied), unfolding(crate::specs::Packer::with_words))]
    fn put_words(&mut self, words: &[u32; ROW_WORDS])
        requires { row_words * (self.old.packed.rows + 1) ≤ length self.old.rows.now }
        ensures { self.new ≡ with_words self.old 1 words.now }
    {
        let word = ROW_WORDS * self.packed.rows;
        self.rows[word..word + ROW_WORDS].copy_from_slice(words);
        self.packed.rows += 1;
    }

    // Writes bytes behind the text.
    #[tactic(auto, unfolding(crate::specs::Packer::with_bytes))]
    fn put_bytes(&mut self, s: &[u8])
        requires { self.old.packed.bytes + length s.now ≤ max_text }
        ensures { self.new ≡ with_bytes self.old s.now }
    {
        put_bytes(self.text, self.packed.bytes, s);
        self.packed.bytes += s.len();
    }

    /// Packs a row over a subtree of so many rows, with its name and then its zone, and says whether it has room. Where it has
    /// none nothing changes.
    pub fn put_row(&mut self, label: Label<'_>, subtree: u32) -> bool
        ensures answer { result ≡ row_fits self.old (label_said label.entry) }
        ensures packed { self.new ≡ put_row self.old (label_said label.entry) subtree }
    {
        if !self.row_fits(label) {
            return false;
        }
        let words = packed_words(label, self.packed.bytes, subtree);
        self.put_words(&words);
        self.put_bytes(label.name);
        self.put_bytes(label.zone);
        true
    }

    /// Sets the subtree of a row that is packed: it and all rows packed behind it. So does who knows the rows below a row only
    /// once they are packed. Of a row that is not packed nothing changes.
    #[tactic(auto, unfolding(crate::specs::Packer::set_subtree, datatype::specs::Table::rows_lent))]
    pub fn set_subtree(&mut self, row: usize)
        ensures { self.new ≡ set_subtree self.old row }
    {
        let rows = self.packed.rows;
        if row < rows && rows <= rows_lent(self.rows.len()) {
            self.rows[ROW_WORDS * row + ROWS] = (rows - row) as u32;
        }
    }

    /// Sets the parents of all rows that are packed: what is done last.
    #[tactic(auto, unfolding(crate::specs::Packer::set_parents))]
    pub fn set_parents(&mut self)
        ensures { self.new ≡ set_parents self.old }
    {
        set_first_parents(self.rows, self.packed.rows);
    }
}
