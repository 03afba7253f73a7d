// Why a text is refused, and where.
use tokenizer::Refusal;

// The refusal, and its place in the text: that of the last token taken (document 02, [2]).
#[derive(Clone, Copy, Debug, PartialEq, Eq)]
pub struct ReadError {
    pub place: usize,
    pub refusal: Refusal,
}
