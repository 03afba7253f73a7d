// Writing at a place that is known to have room: nothing asks for it. With stores that ask, as `writer::Writer` has them,
// printing takes 2 to 9 in 100 more instructions.
ghost use Rattle.std.specs.Prelude.{◌+◌, ◌≤◌, length, [], ◌∷◌};
ghost use Rattle.writer.specs.Digits.{digits};
ghost use Rattle.datatype_display.specs.Internal.Steps.{Fits, Wrote, Stored};

use itoa::write_digits;
use writer::digits_length;

// Stores bytes at a place, and answers the place behind them. One by one: those of a literal become a store or two, and of
// others many are stored at once. By `copy_from_slice` a library for C would need `memmove` from outside, and each literal is
// asked whether it overlaps the output.
#[tactic(auto, using(writer::proofs::Writes::puts))]
pub(crate) fn store(out: &mut [u8], at: usize, s: &[u8]) -> usize
    requires { at + length s.now ≤ length out.old }
    ensures { Stored out.old at s.now result out.new }
{
    for i in 0..s.len() {
        out[at + i] = s[i];
    }
    at + s.len()
}

// Stores one byte.
pub(crate) fn store_byte(out: &mut [u8], at: usize, c: u8) -> usize
    requires { at + length (c ∷ []) ≤ length out.old }
    ensures { Stored out.old at (c ∷ []) result out.new }
{
    out[at] = c;
    at + 1
}

// The output, and the place in it behind what was written.
#[derive(Drop)]
pub(crate) struct Printer<'a> {
    pub(crate) at: usize,
    pub(crate) out: &'a mut [u8],
}

impl<'a> Printer<'a> {
    // Writes bytes.
    pub(crate) fn put(&mut self, s: &[u8])
        requires { Fits self.old s.now }
        ensures { Wrote self.old s.now self.new }
    {
        self.at = store(self.out, self.at, s);
    }

    // Writes one byte.
    pub(crate) fn put_mark(&mut self, c: u8)
        requires { Fits self.old (c ∷ []) }
        ensures { Wrote self.old (c ∷ []) self.new }
    {
        self.at = store_byte(self.out, self.at, c);
    }

    // Writes a number in decimal digits.
    #[tactic(auto, using(writer::proofs::DigitLaws::digits_decimal))]
    pub(crate) fn put_number(&mut self, n: u32)
        requires { Fits self.old (digits n) }
        ensures { Wrote self.old (digits n) self.new }
    {
        let end = self.at + digits_length(n);
        write_digits(n as u64, self.out, end);
        self.at = end;
    }
}
