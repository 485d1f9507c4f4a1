ghost use Rattle.std.specs.Prelude.{◌≡◌};
ghost use Rattle.values.specs.Spelling.{spelt, class_words};

use ground::class::Class;
use ground::classes::Classes;

// A word that is the same wherever it stands.
#[derive(Clone, Copy)]
pub enum Word {
    Whole,
    Tenth,
    Flag,
    To,
    List,
    Record,
    Row,
    Absent,
    Dots,
    Num,
    Ord,
    Eq,
    Steady,
}

impl Word {
    pub fn as_str(self) -> &'static str
        ensures { result.now ≡ spelt self }
    {
        match self {
            Word::Whole => "whole",
            Word::Tenth => "tenth",
            Word::Flag => "flag",
            Word::To => "to",
            Word::List => "list",
            Word::Record => "record",
            Word::Row => "row",
            Word::Absent => "-",
            Word::Dots => "...",
            Word::Num => "num",
            Word::Ord => "ord",
            Word::Eq => "eq",
            Word::Steady => "steady",
        }
    }
}

// A word for each class of the set, by the order of the classes.
pub fn class_words(classes: Classes) -> [Option<Word>; 4]
    ensures { result ≡ class_words classes }
{
    [
        classes.asks(Class::Num).then_some(Word::Num),
        classes.asks(Class::Ord).then_some(Word::Ord),
        classes.asks(Class::Eq).then_some(Word::Eq),
        classes.asks(Class::Steady).then_some(Word::Steady),
    ]
}
