// The codes that fresh and build made, by number; and those that only looks have shown.
ghost use Rattle.std.specs.Prelude.{◌≡◌, [], length, take, Some, None, IfOk, IfErr};
ghost use Rattle.calls.specs.Books.{at, code_of, child_of, kind_at, shown, WrittenAs};

use ground::code::Code;
use std::alloc::{AllocError, Global};
use std::fmt;
use values::kind::Kind;

#[derive(Clone, Copy)]
pub struct Made {
    pub code: Code,
    pub kind: Kind,
}

// What stands for a number under which no code was made. No system knows the code, so the system that is asked says what is due.
const NOWHERE: Made = Made {
    code: Code(u32::MAX),
    kind: Kind::Type,
};

#[derive(Drop)]
pub struct Book {
    pub(crate) made: Vec<Made>,
    pub(crate) seen: Vec<Code>,
}

// How a code is written: by the order of making, or, where it was not made by a call, of being seen.
#[derive(Clone, Copy)]
pub enum Written {
    Made(usize),
    Seen(usize),
}

impl fmt::Display for Written {
    ghost output = { λ w. Some (shown w) };

    fn fmt<W: fmt::Write>(&self, f: &mut fmt::Formatter<W>) -> fmt::Result {
        match self {
            Written::Made(k) => write!(f, "#{k}"),
            Written::Seen(k) => write!(f, "+{k}"),
        }
    }
}

impl Book {
    // A book without a number.
    pub fn new(heap: Global) -> Book
        ensures made { result.made.items ≡ [] }
        ensures seen { result.seen.items ≡ [] }
    {
        Book {
            made: Vec::new(heap),
            seen: Vec::new(heap),
        }
    }

    fn at(&self, number: u32) -> Made
        ensures { result ≡ at self.now.made.items number }
    {
        self.made
            .as_slice()
            .get(number as usize)
            .copied()
            .unwrap_or(NOWHERE)
    }

    // The code of this number; one that no system knows where none was made.
    pub fn code(&self, number: u32) -> Code
        ensures { result ≡ code_of self.now.made.items number }
    {
        self.at(number).code
    }

    // The code of a child, if there is one.
    pub fn child(&self, number: Option<u32>) -> Code
        ensures { result ≡ child_of self.now.made.items number }
    {
        match number {
            Some(k) => self.code(k),
            None => NOWHERE.code,
        }
    }

    pub fn kind(&self, number: u32) -> Kind
        ensures { result ≡ kind_at self.now.made.items number }
    {
        self.at(number).kind
    }

    // What the code is written as; one that was not made is noted when it is first seen.
    pub fn written(&mut self, code: Code) -> Result<Written, AllocError>
        ensures made { self.new.made.items ≡ self.old.made.items }
        ensures written { IfOk result (λ w. WrittenAs self.old.made.items self.old.seen.items code w self.new.seen.items) }
        ensures refused { IfErr result (λ e. self.new.seen.items ≡ self.old.seen.items) }
    {
        if let Some(i) = self.made.iter().position(|m| m.code == code) {
            return Ok(Written::Made(i));
        }
        if let Some(i) = self.seen.iter().position(|c| *c == code) {
            return Ok(Written::Seen(i));
        }
        let i = self.seen.len();
        self.seen.push(code)?;
        Ok(Written::Seen(i))
    }

    // How many numbers there are.
    pub fn count(&self) -> usize
        ensures { result ≡ length self.now.made.items }
    {
        self.made.len()
    }

    // The book as it was when it had so many numbers.
    pub fn back_to(&mut self, numbers: usize)
        ensures made { self.new.made.items ≡ take numbers self.old.made.items }
        ensures seen { self.new.seen.items ≡ [] }
    {
        self.made.truncate(numbers);
        self.seen.clear();
    }
}
