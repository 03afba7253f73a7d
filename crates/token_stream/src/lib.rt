// A text and a place in it, held in one value, as the Rust's `Tokenizer` holds them. A thin layer: each method takes the
// struct apart and calls the function on the text and the place.

#![tactic(auto)]

ghost use Rattle.std.specs.Prelude.{◌≡◌};
ghost use Rattle.tokenizer.specs.Token.{standing_of, token_at};
ghost use Rattle.token_stream.specs.Stream.{start_of, token_of, moved_on};
ghost use Rattle.token_stream.specs.Count.{count_of, count_tokens};

use tokenizer::{NoToken, Refusal, Token, next_token};

#[derive(Clone, Copy)]
pub struct Tokenizer<'a> {
    pub text: &'a [u8],
    pub at: usize,
}

impl<'a> Tokenizer<'a> {
    // At the start of a text.
    pub fn new(text: &'a [u8]) -> Tokenizer<'a>
        ensures { result ≡ start_of text.entry }
    {
        Tokenizer { text, at: 0 }
    }

    // The token at the place, or what is none, and where it stands.
    pub fn peek(self) -> Result<Token, NoToken>
        ensures { standing_of result ≡ token_of self.entry }
    {
        next_token(self.text, self.at)
    }

    // The same text, at the place behind the token. What is no token is passed if it is a word, and else begins there.
    pub fn advance(self) -> Tokenizer<'a>
        ensures { result ≡ moved_on self.entry }
    {
        Tokenizer {
            text: self.text,
            at: place_behind(self.peek()),
        }
    }

    // The token at the place, or what is none, and the place moves behind it.
    pub fn next(&mut self) -> Result<Token, NoToken>
        ensures token { standing_of result ≡ token_of self.old }
        ensures place { self.new ≡ moved_on self.old }
    {
        let token = self.peek();
        self.at = place_behind(token);
        token
    }
}

// The place behind a token, or behind what is none.
fn place_behind(token: Result<Token, NoToken>) -> usize
    ensures { result ≡ (standing_of token).next }
{
    match token {
        Ok(token) => token.next,
        Err(none) => none.next,
    }
}

// The token at or behind a place, by a tokenizer that stands there: what `tokenizer::next_token` answers. What is public
// stays.
pub fn token_from(text: &[u8], at: usize) -> Result<Token, NoToken>
    ensures { standing_of result ≡ token_at text.now at }
{
    let tokens = Tokenizer { text, at };
    tokens.peek()
}

// How many tokens are read one behind another, and what the next is refused with.
#[derive(Clone, Copy)]
pub struct TokenCount {
    pub tokens: usize,
    pub refusal: Refusal,
}

// Counts the tokens of a text.
#[tactic(auto, using(crate::proofs::CountLaws::count_steps))]
pub fn count_tokens(text: &[u8]) -> TokenCount
    ensures { count_of result ≡ count_tokens text.now }
{
    let mut at = 0;
    let mut tokens = 0;
    // No iterator: it counts until the first refusal, which it hands back beside the count.
    loop {
        match token_from(text, at) {
            Ok(token) => {
                at = token.next;
                tokens += 1;
            }
            Err(none) => {
                return TokenCount {
                    tokens,
                    refusal: none.refusal,
                };
            }
        }
    }
}
