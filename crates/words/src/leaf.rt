ghost use Rattle.std.specs.Prelude.{◌≡◌};
ghost use Rattle.words.specs.Numbers.{number_of};
ghost use Rattle.words.specs.Leaves.{leaf_of, number_or_name};

use crate::number::{Number, TooLarge};
use crate::spelling::is_name;

// What a word is where a form may stand.
#[derive(Clone, Copy, PartialEq, Eq, Debug)]
pub enum Leaf {
    Truth(bool),
    Number(Number),
    Name,
}

// Why a word cannot stand there: it is a number out of range, or no word of the language.
#[derive(Clone, Copy, PartialEq, Eq, Debug)]
pub enum LeafFault {
    TooLarge,
    Stray,
}

// What a word is that is no truth.
fn number_or_name(word: &[u8]) -> Result<Leaf, LeafFault>
    ensures { result ≡ number_or_name (number_of word.now) word.now }
{
    match Number::of(word) {
        Some(Ok(number)) => Ok(Leaf::Number(number)),
        Some(Err(TooLarge)) => Err(LeafFault::TooLarge),
        None if is_name(word) => Ok(Leaf::Name),
        None => Err(LeafFault::Stray),
    }
}

impl Leaf {
    // What the word is.
    pub fn of(word: &[u8]) -> Result<Leaf, LeafFault>
        ensures { result ≡ leaf_of word.now }
    {
        match word {
            b"yes" => Ok(Leaf::Truth(true)),
            b"no" => Ok(Leaf::Truth(false)),
            _ => number_or_name(word),
        }
    }
}
