ghost use Rattle.std.specs.Prelude.{◌≡◌};
ghost use Rattle.values.specs.Kinds.{letter_of_kind, kind_of_sort, kind_of_head};

use ground::head::Head;
use ground::sort::Sort;

// What a code stands for.
#[derive(Clone, Copy, PartialEq, Eq)]
pub enum Kind {
    Type,
    Field,
    Row,
}

impl Kind {
    // What its names begin with.
    pub(crate) fn letter(self) -> u8
        ensures { result ≡ letter_of_kind self }
    {
        match self {
            Kind::Type => b'a',
            Kind::Field => b'f',
            Kind::Row => b'r',
        }
    }
}

impl From<Sort> for Kind {
    ghost from_gives = { λ s k. k ≡ kind_of_sort s };

    fn from(sort: Sort) -> Kind {
        match sort {
            Sort::Type => Kind::Type,
            Sort::Field => Kind::Field,
            Sort::Row(_) => Kind::Row,
        }
    }
}

// The kind of what the head builds.
impl From<Head> for Kind {
    ghost from_gives = { λ h k. k ≡ kind_of_head h };

    fn from(head: Head) -> Kind {
        match head {
            Head::Absent | Head::Has => Kind::Field,
            Head::Empty | Head::Row => Kind::Row,
            _ => Kind::Type,
        }
    }
}
