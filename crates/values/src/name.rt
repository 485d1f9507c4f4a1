// The names of open codes.
ghost use Rattle.std.specs.Prelude.{◌≡◌};
ghost use Rattle.values.specs.Spelling.{named_in, count_of};

use crate::kind::Kind;
use ground::classes::Classes;
use ground::code::Code;

// A code that is not solved yet, with what it stands for.
#[derive(Clone, Copy)]
pub struct Unsolved {
    pub code: Code,
    pub kind: Kind,
    pub classes: Classes,
}

// An open code that has a name: the letter of its kind, and a number among those.
#[derive(Clone, Copy)]
pub struct Variable {
    pub unsolved: Unsolved,
    pub number: usize,
}

pub(crate) fn named(names: &[Variable], code: Code) -> Option<Variable>
    ensures { result ≡ named_in names.now code.0 }
{
    names.iter().find(|v| v.unsolved.code == code).copied()
}

// How many names begin with this letter.
pub(crate) fn count_of(names: &[Variable], letter: u8) -> usize
    ensures { result ≡ count_of names.now letter }
{
    names
        .iter()
        .filter(|v| v.unsolved.kind.letter() == letter)
        .count()
}
