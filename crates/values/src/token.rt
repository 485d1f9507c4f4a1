// A value as tokens: words and brackets. A word is a head, a label, `-` for an absent field, a variable, or dots for a value that is too long.
ghost use Rattle.std.specs.Prelude.{◌≡◌};
ghost use Rattle.values.specs.Tokens.{is_word, word_count};

use crate::name::Unsolved;
use crate::word::Word;

#[derive(Clone, Copy)]
pub enum Token {
    Open,
    Close,
    Word(Word),
    Label(u8),
    Variable(Unsolved),
}

impl Token {
    pub(crate) fn is_word(self) -> bool
        ensures { result ≡ is_word self }
    {
        !matches!(self, Token::Open | Token::Close)
    }
}

// How many of them are words.
pub fn word_count(tokens: &[Token]) -> usize
    ensures { result ≡ word_count tokens.now }
{
    tokens.iter().filter(|token| token.is_word()).count()
}
