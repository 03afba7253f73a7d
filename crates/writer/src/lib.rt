// Writing into lent bytes: bytes, and numbers in decimal digits. What has no room is not written.

#![tactic(auto)]

ghost use Rattle.std.specs.Prelude.{◌≡◌, [], ◌∷◌, length};
ghost use Rattle.std.proofs.lemmas.List.Edits.{sets};
ghost use Rattle.writer.specs.Digits.{digits};
ghost use Rattle.writer.specs.Written.{written};

use itoa::write_digits;

// Writes bytes at a place: those that there is room for. One by one, which is compiled to stores of many at once: by
// `copy_from_slice` a library for C would need `memcpy` from outside.
#[tactic(auto, using(crate::proofs::Writes::puts))]
pub fn put_bytes(out: &mut [u8], at: usize, s: &[u8])
    ensures { out.new ≡ sets out.old at s.now }
{
    if at < out.len() {
        for i in 0..s.len().min(out.len() - at) {
            out[at + i] = s[i];
        }
    }
}

// Writes a byte at a place, if there is room for it.
#[tactic(auto, using(crate::proofs::Writes::puts))]
fn put_byte(out: &mut [u8], at: usize, c: u8)
    ensures { out.new ≡ sets out.old at (c ∷ []) }
{
    if at < out.len() {
        out[at] = c;
    }
}

// The digits of the greatest number of 32 bits.
const MAX_DIGITS: usize = 10;

/// Bytes written one behind another into a lent output: those that there is room for. All are counted, so that a writer
/// over no bytes says how many there would be.
#[derive(Drop)]
pub struct Writer<'a> {
    /// The place in the output where the next byte belongs. It stops at `usize::MAX`.
    pub at: usize,
    pub out: &'a mut [u8],
}

impl<'a> Writer<'a> {
    /// Writes bytes.
    #[tactic(auto, using(crate::proofs::Written::wrote))]
    pub fn put(&mut self, s: &[u8])
        ensures { self.new ≡ written self.old s.now }
    {
        put_bytes(self.out, self.at, s);
        self.at = self.at.saturating_add(s.len());
    }

    /// Writes one byte.
    #[tactic(auto, using(crate::proofs::Written::wrote))]
    pub fn put_byte(&mut self, c: u8)
        ensures { self.new ≡ written self.old (c ∷ []) }
    {
        put_byte(self.out, self.at, c);
        self.at = self.at.saturating_add(1);
    }

    /// Writes a number in decimal digits.
    #[tactic(auto, using(crate::proofs::DigitLaws::ten_digits))]
    pub fn put_number(&mut self, n: u32)
        ensures { self.new ≡ written self.old (digits n) }
    {
        let mut number = [0; MAX_DIGITS];
        let start = write_digits(n as u64, &mut number, MAX_DIGITS);
        self.put(&number[start..]);
    }
}

// How many decimal digits a number has.
#[tactic(auto, using(crate::proofs::DigitLaws::how_many))]
pub fn digits_length(n: u32) -> usize
    ensures { result ≡ length (digits n) }
{
    if n < 10 {
        return 1;
    }
    n.ilog10() as usize + 1
}
