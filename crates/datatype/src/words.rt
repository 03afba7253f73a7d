// Words that are the same, and words set to 0.
ghost use Rattle.std.specs.Prelude.{◌≡◌, length, replicate};
ghost use Rattle.tokenizer.specs.Text.{same};

// Whether two slices of words are the same: `==`, said by the contracts' word, which is `same`, of numbers. One generic
// function for words and bytes would say no more than `==` does.
#[tactic(auto, using(crate::proofs::Same::pointwise_same))]
pub fn equal_words(a: &[u32], b: &[u32]) -> bool
    ensures { result ≡ same a.now b.now }
{
    a == b
}

// Sets every word to 0: `fill`, by which the crates here do it. What is public stays.
pub fn clear_words(words: &mut [u32])
    ensures { words.new ≡ replicate (length words.old) 0 }
{
    words.fill(0);
}
