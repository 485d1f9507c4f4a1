// The words of a line: it is cut at each space, so two spaces together have an empty word between them.
ghost use Rattle.std.specs.Prelude.{◌≡◌, length};
ghost use Rattle.std.specs.Iterator.{at_most};
ghost use Rattle.words.specs.Sheets.{spaced};
ghost use Rattle.lines.specs.Words.{left, others, ended, Takes};
ghost use Rattle.lines.specs.Lines.{code_number, next_number, next_code, alone};

use words::number::magnitude;
use words::split::split_word;

#[derive(Clone, Copy)]
pub struct Words<'a> {
    // What stands behind the space, if there was one.
    pub(crate) rest: Option<&'a [u8]>,
}

impl<'a> Iterator for Words<'a> {
    type Item = &'a [u8];

    ghost next_gives = { Takes };

    ghost remaining = { λ s. at_most (length (left s)) };

    fn next(&mut self) -> Option<&'a [u8]> {
        let text = self.rest?;
        let (word, rest) = split_word(text);
        self.rest = rest;
        Some(word)
    }
}

impl<'a> Words<'a> {
    pub fn of(line: &'a [u8]) -> Words<'a>
        ensures { left result ≡ spaced line.now }
    {
        Words { rest: Some(line) }
    }

    // Is no word left?
    pub fn at_end(&self) -> bool
        ensures { result ≡ ended (left self.now) }
    {
        self.rest.is_none()
    }

    // The value, where no word is left.
    pub fn alone<T: Drop>(&self, value: T) -> Option<T>
        ensures { result ≡ alone value (left self.now) }
    {
        self.at_end().then_some(value)
    }

    pub fn next_number(&mut self) -> Option<u32>
        ensures number { result ≡ next_number (left self.old) }
        ensures rest { left self.new ≡ others (left self.old) }
    {
        magnitude(self.next()?)
    }

    pub fn next_code(&mut self) -> Option<u32>
        ensures code { result ≡ next_code (left self.old) }
        ensures rest { left self.new ≡ others (left self.old) }
    {
        code_number(self.next()?)
    }
}

// The number of a code, as in `#7`.
pub fn code_number(word: &[u8]) -> Option<u32>
    ensures { result ≡ code_number word.now }
{
    match word {
        [b'#', digits @ ..] => magnitude(digits),
        _ => None,
    }
}
