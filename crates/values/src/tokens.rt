// The values of a line, as tokens.
ghost use Rattle.std.specs.Prelude.{◌≡◌, [], ◌∷◌, ◌++◌, length, OnOk};
ghost use Rattle.values.specs.Tokens.{ended_at, Begins};

use crate::token::{Token, word_count};
use crate::word::Word;
use std::alloc::{AllocError, Global};

// A value of more words is not written.
const MOST_WORDS: usize = 256;

#[derive(Drop)]
pub struct Tokens {
    pub(crate) list: Vec<Token>,
    // Of the value that is being written, so that a large one is left in time.
    words: usize,
}

impl Tokens {
    pub fn new(heap: Global) -> Tokens
        ensures { result.list.items ≡ [] }
    {
        Tokens {
            list: Vec::new(heap),
            words: 0,
        }
    }

    pub fn as_slice(&self) -> &[Token]
        ensures { result.now ≡ self.now.list.items }
    {
        self.list.as_slice()
    }

    pub(crate) fn count(&self) -> usize
        ensures { result ≡ length self.now.list.items }
    {
        self.list.len()
    }

    pub(crate) fn is_long(&self) -> bool {
        self.words > MOST_WORDS
    }

    pub(crate) fn push(&mut self, token: Token) -> Result<(), AllocError>
        ensures items { OnOk result (self.new.list.items ≡ self.old.list.items ++ token ∷ []) }
        ensures kept { OnOk result (Begins self.old.list.items self.new.list.items) }
    {
        if token.is_word() {
            self.words = self.words.saturating_add(1);
        }
        self.list.push(token)?;
        Ok(())
    }

    // Ends the value that began there: one of too many words is dots.
    pub(crate) fn end_value(&mut self, begun: usize) -> Result<(), AllocError>
        ensures { OnOk result (self.new.list.items ≡ ended_at begun self.old.list.items) }
    {
        self.words = 0;
        if begun > self.list.len() {
            return Ok(());
        }
        let n = word_count(&self.list.as_slice()[begun..]);
        if n > MOST_WORDS {
            self.list.truncate(begun);
            self.list.push(Token::Word(Word::Dots))?;
        }
        Ok(())
    }
}
