// The words of kinds, and scales.
ghost use Rattle.std.specs.Prelude.{◌<◌};
ghost use Rattle.datatype.specs.Kind.{kinds};
ghost use Rattle.display_length.specs.Display.{kind_word, scale_text};
ghost use Rattle.datatype_display.specs.Internal.Steps.{Fits, Wrote};

use crate::write::Printer;
use display_length::kind_word;

impl<'a> Printer<'a> {
    // Writes the word of a kind. It is made part of its callers: with a call, the fields of a Struct take a hundredth more.
    #[inline(always)]
    #[tactic(auto, using(display_length::proofs::WordLaws::kind_text_is))]
    pub(crate) fn put_kind(&mut self, kind: u32)
        requires { (kind < kinds) × Fits self.old (kind_word kind) }
        ensures { Wrote self.old (kind_word kind) self.new }
    {
        self.put(kind_word(kind));
    }

    // Writes a decimal's scale, of which the word is 128 more.
    #[tactic(auto, using(crate::proofs::Writes::writes), unfolding(display_length::specs::Display::scale_text))]
    pub(crate) fn put_scale(&mut self, scale: u32)
        requires { Fits self.old (scale_text scale) }
        ensures { Wrote self.old (scale_text scale) self.new }
    {
        if scale < 128 {
            self.put_mark(b'-');
            self.put_number(128 - scale);
            return;
        }
        self.put_number(scale - 128);
    }
}
