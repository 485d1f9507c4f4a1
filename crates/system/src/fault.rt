ghost use Rattle.std.specs.Prelude.{◌≡◌, Some};
ghost use Rattle.system.specs.Faults.{system_number, system_layer, system_words, class_number, class_layer, class_words, new_number, new_layer, new_words};
ghost use Rattle.system.specs.declared.fault.NewFault.TheVariants.{Memory};

use ground::refusal::Refusal;
use std::alloc::AllocError;
use std::fmt;

// What a bottom system refuses, each case with its number.
#[derive(Clone, Copy, PartialEq, Eq, Debug)]
pub enum SystemFault {
    // A class was demanded of a system without classes.
    NoClasses = 11,
    // Two heads differ.
    Clash = 12,
    // A value would be a part of itself.
    Cyclic = 13,
    // No cell is left.
    NoCells = 16,
    // An unknown code, head or sort, a wrong one, a bad class or label, or a mark that is not the newest.
    Unknown = 21,
    // As many marks are open as can be.
    TooManyMarks = 23,
}

impl Refusal for SystemFault {
    ghost number = { system_number };

    ghost layer = { system_layer };

    fn number(&self) -> u8 {
        *self as u8
    }

    fn layer(&self) -> u8 {
        4
    }
}

impl fmt::Display for SystemFault {
    ghost output = { λ f. Some (system_words f) };

    fn fmt<W: fmt::Write>(&self, f: &mut fmt::Formatter<W>) -> fmt::Result {
        f.write_str(match self {
            SystemFault::NoClasses => "no class is known here",
            SystemFault::Clash => "two heads differ",
            SystemFault::Cyclic => "a value would be a part of itself",
            SystemFault::NoCells => "no room is left",
            SystemFault::Unknown =>
                "a code, head, sort, label or class that is not known or does not fit",
            SystemFault::TooManyMarks => "as many marks are open as can be",
        })
    }
}

// What the class layer refuses of its own, each case with its number.
#[derive(Clone, Copy, PartialEq, Eq, Debug)]
pub enum ClassFault {
    // A head outside the class.
    NotInClass = 14,
    // A set of classes without a common member.
    NoMember = 15,
    // Too many open codes would have a class.
    TooManyClasses = 17,
    // A class above 3, or a system below that is not new or has classes.
    Unknown = 21,
    // As many marks are open as can be.
    TooManyMarks = 23,
}

impl Refusal for ClassFault {
    ghost number = { class_number };

    ghost layer = { class_layer };

    fn number(&self) -> u8 {
        let own = *self;
        own as u8
    }

    fn layer(&self) -> u8 {
        3
    }
}

impl fmt::Display for ClassFault {
    ghost output = { λ f. Some (class_words f) };

    fn fmt<W: fmt::Write>(&self, f: &mut fmt::Formatter<W>) -> fmt::Result {
        f.write_str(match self {
            ClassFault::NotInClass => "the value is not in the class",
            ClassFault::NoMember => "no value is in all of the classes",
            ClassFault::TooManyClasses => "over 128 open codes would have a class",
            ClassFault::Unknown =>
                "a code, head, sort, label or class that is not known or does not fit",
            ClassFault::TooManyMarks => "as many marks are open as can be",
        })
    }
}

// Why a system is not built.
#[derive(Clone, Copy, PartialEq, Eq, Debug)]
pub enum NewFault {
    // The capacity is outside 16 to 4,096.
    Capacity,
    // The memory is not to be had.
    Memory,
}

impl NewFault {
    // Its number; want of memory has none.
    pub fn number(&self) -> Option<u8>
        ensures { result ≡ new_number self.now }
    {
        match *self {
            NewFault::Capacity => Some(1),
            NewFault::Memory => None,
        }
    }

    // The layer that found it.
    pub fn layer(&self) -> u8
        ensures { result ≡ new_layer self.now }
    {
        4
    }
}

impl fmt::Display for NewFault {
    ghost output = { λ f. Some (new_words f) };

    fn fmt<W: fmt::Write>(&self, f: &mut fmt::Formatter<W>) -> fmt::Result {
        f.write_str(match self {
            NewFault::Capacity => "the cells must be 16 to 4096",
            NewFault::Memory => "the memory is not to be had",
        })
    }
}

impl From<AllocError> for NewFault {
    ghost from_gives = { λ x y. y ≡ Memory };

    fn from(_: AllocError) -> NewFault {
        NewFault::Memory
    }
}
