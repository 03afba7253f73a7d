// UTF-8, as std tests it.
ghost use Rattle.std.specs.Prelude.{◌≡◌};
ghost use Rattle.tokenizer.specs.Utf8.{is_utf8};

// Whether a text is UTF-8. Most texts are ASCII: told so alone, a short one takes about half the instructions.
#[tactic(auto, using(crate::proofs::RustUtf8::test_ascii, crate::proofs::RustUtf8::test_yes, crate::proofs::RustUtf8::test_no))]
pub fn is_utf8(text: &[u8]) -> bool
    ensures { result ≡ is_utf8 text.now }
{
    text.is_ascii() || str::from_utf8(text).is_ok()
}
