ghost use Rattle.std.specs.Prelude.{◌≡◌, Some};
ghost use Rattle.words.specs.declared.leaf.LeafFault.{LeafFault};
ghost use Rattle.script.specs.Faults.{number, words_of, fault, span, of_leaf};

use ground::place::Place;
use ground::refusal::Refusal;
use std::fmt;
use words::leaf::LeafFault;

// Why a script is refused, each reason with the number that it is known by.
#[derive(Clone, Copy, PartialEq, Eq, Debug)]
pub enum Reason {
    TooLong = 3,
    BadByte = 4,
    Unexpected = 5,
    TooDeep = 6,
    OutOfRange = 7,
    TooManyForms = 8,
    UnknownLabel = 9,
    UnboundName = 10,
    NoRecords = 11,
}

// A refusal with its place; the layer that finds it is 1, the reader.
#[derive(Clone, Copy, PartialEq, Eq, Debug)]
pub struct ReadFault {
    pub reason: Reason,
    pub place: Place,
}

impl Reason {
    // The number that the refusal is known by.
    pub fn number(self) -> u8
        ensures { result ≡ number self }
    {
        self as u8
    }

    // The refusal of what stands at the place.
    pub(crate) fn at(self, place: Place) -> ReadFault
        ensures { result ≡ fault self place }
    {
        ReadFault {
            reason: self,
            place,
        }
    }

    // The refusal of so many bytes from `start` on.
    pub(crate) fn over(self, start: usize, length: usize) -> ReadFault
        ensures { result ≡ fault self (span start length) }
    {
        self.at(Place { start, length })
    }
}

impl Refusal for ReadFault {
    ghost number = { λ f. number f.reason };

    ghost layer = { λ _. 1 };

    fn number(&self) -> u8 {
        self.reason.number()
    }

    fn layer(&self) -> u8 {
        1
    }
}

impl fmt::Display for ReadFault {
    ghost output = { λ f. Some (words_of f.reason f.place.length) };

    fn fmt<W: fmt::Write>(&self, f: &mut fmt::Formatter<W>) -> fmt::Result {
        f.write_str(match self.reason {
            Reason::TooLong => "the script is longer than 4096 bytes",
            Reason::BadByte => "this byte is none of the printable ones",
            Reason::Unexpected if self.place.length == 0 =>
                "the script ends here, and is not whole",
            Reason::Unexpected => "this cannot stand here",
            Reason::TooDeep => "brackets nest deeper than 32",
            Reason::OutOfRange => "the number is out of range",
            Reason::TooManyForms => "there are more than 512 forms",
            Reason::UnknownLabel => "the label is not on the sheet",
            Reason::UnboundName => "the name is not bound",
            Reason::NoRecords => "records are not known here",
        })
    }
}

impl From<LeafFault> for Reason {
    ghost from_gives = { λ why reason. reason ≡ of_leaf why };

    fn from(why: LeafFault) -> Reason {
        match why {
            LeafFault::TooLarge => Reason::OutOfRange,
            LeafFault::Stray => Reason::Unexpected,
        }
    }
}
