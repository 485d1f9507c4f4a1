use ground::place::Place;
use ground::refusal::Refusal;
use script::fault::ReadFault;
use std::fmt;
use std::fmt::Display;
use system::fault::NewFault;

// Why a line is refused.
#[derive(Clone, Copy)]
pub(crate) enum Refused {
    Cells,
    Sheet,
    Script(ReadFault),
}

impl Refused {
    pub(crate) fn number(&self) -> u8 {
        match self {
            Refused::Cells => 1,
            Refused::Sheet => 2,
            Refused::Script(fault) => fault.number(),
        }
    }

    // The layer that found it.
    pub(crate) fn layer(&self) -> u8 {
        match self {
            Refused::Cells => 4,
            Refused::Sheet => 2,
            Refused::Script(fault) => fault.layer(),
        }
    }

    // Where in a script; at no byte where none is read.
    pub(crate) fn place(&self) -> Place {
        match self {
            Refused::Cells | Refused::Sheet => Place {
                start: 0,
                length: 0,
            },
            Refused::Script(fault) => fault.place,
        }
    }
}

impl From<ReadFault> for Refused {
    fn from(fault: ReadFault) -> Refused {
        Refused::Script(fault)
    }
}

// What the refusal means.
impl Display for Refused {
    fn fmt<W: fmt::Write>(&self, f: &mut fmt::Formatter<W>) -> fmt::Result {
        match self {
            Refused::Cells => NewFault::Capacity.fmt(f),
            Refused::Sheet => f.write_str(
                "a sheet is at most 24 labels, each once, one space apart",
            ),
            Refused::Script(fault) => fault.fmt(f),
        }
    }
}
