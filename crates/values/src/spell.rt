// Tokens as text.
ghost use Rattle.std.specs.Prelude.{◌≡◌, ◌∷◌, ◌++◌, IfOk, string_bytes, decimal, OnOk};
ghost use Rattle.values.specs.Kinds.{letter_of_kind};
ghost use Rattle.values.specs.Spelling.{number_of, named_in, start, added, noted, step, spelled};
ghost use Rattle.values.specs.Writers.{writing};

use crate::kind::Kind;
use crate::name::{Unsolved, Variable, count_of, named};
use crate::speller::Speller;
use crate::token::Token;
use std::alloc::{AllocError, Global};

fn name_of(heap: Global, kind: Kind, number: usize) -> Result<String, AllocError>
    ensures { IfOk result (λ s. string_bytes s ≡ letter_of_kind kind ∷ decimal number) }
{
    let letter = kind.letter() as char;
    format!(in heap; "{letter}{number}")
}

impl Speller {
    pub fn new(heap: Global) -> Speller
        ensures { writing result ≡ start }
    {
        Speller {
            heap,
            text: String::new(heap),
            names: Vec::new(heap),
            tight: true,
        }
    }

    // A word or an opening bracket, behind a space where one is due.
    fn add(&mut self, text: &str, tight: bool) -> Result<(), AllocError>
        ensures { OnOk result (writing self.new ≡ added (writing self.old) text.now tight) }
    {
        if !self.tight {
            self.text.push_str(" ")?;
        }
        self.text.push_str(text)?;
        self.tight = tight;
        Ok(())
    }

    fn close(&mut self) -> Result<(), AllocError>
        ensures { OnOk result (writing self.new ≡ step (writing self.old) Token.Close) }
    {
        self.text.push_str(")")?;
        self.tight = false;
        Ok(())
    }

    // The number of the code's name; a code that has none takes the next.
    fn note(&mut self, unsolved: Unsolved) -> Result<usize, AllocError>
        ensures { IfOk result (λ n. (n ≡ number_of (named_in self.old.names.items unsolved.code.0) self.old.names.items unsolved.kind) × (writing self.new ≡ noted (writing self.old) unsolved)) }
    {
        if let Some(v) = named(self.names.as_slice(), unsolved.code) {
            return Ok(v.number);
        }
        let number = count_of(self.names.as_slice(), unsolved.kind.letter());
        self.names.push(Variable { unsolved, number })?;
        Ok(number)
    }

    fn variable(&mut self, unsolved: Unsolved) -> Result<(), AllocError>
        ensures { OnOk result (writing self.new ≡ step (writing self.old) (Token.Variable unsolved)) }
    {
        let number = self.note(unsolved)?;
        let name = name_of(self.heap, unsolved.kind, number)?;
        self.add(name.as_str(), false)
    }

    fn put(&mut self, token: Token) -> Result<(), AllocError>
        ensures { OnOk result (writing self.new ≡ step (writing self.old) token) }
    {
        match token {
            Token::Open => self.add("(", true),
            Token::Close => self.close(),
            Token::Word(word) => self.add(word.as_str(), false),
            Token::Label(label) => {
                let text = label.to_string(self.heap)?;
                self.add(text.as_str(), false)
            }
            Token::Variable(unsolved) => self.variable(unsolved),
        }
    }

    // Writes the tokens behind what is written.
    pub fn spell(&mut self, tokens: &[Token]) -> Result<(), AllocError>
        ensures { OnOk result (writing self.new ≡ spelled (writing self.old) tokens.now) }
    {
        for token in tokens {
            self.put(*token)?;
        }
        Ok(())
    }

    pub fn as_str(&self) -> &str
        ensures { result.now ≡ (writing self.now).bytes }
    {
        self.text.as_str()
    }

    pub fn names(&self) -> &[Variable]
        ensures { result.now ≡ (writing self.now).names }
    {
        self.names.as_slice()
    }
}
