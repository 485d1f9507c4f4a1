ghost use Rattle.std.specs.Prelude.{◌≡◌};
ghost use Rattle.cells.specs.Heads.{leaf_head, one_head};

use crate::{Bare, Wrap};
use ground::head::Head;

impl From<Bare> for Head {
    ghost from_gives = { λ x y. y ≡ leaf_head x };

    fn from(bare: Bare) -> Head {
        match bare {
            Bare::Whole => Head::Whole,
            Bare::Tenth => Head::Tenth,
            Bare::Flag => Head::Flag,
            Bare::Absent => Head::Absent,
            Bare::Empty => Head::Empty,
        }
    }
}

impl From<Wrap> for Head {
    ghost from_gives = { λ x y. y ≡ one_head x };

    fn from(wrap: Wrap) -> Head {
        match wrap {
            Wrap::List => Head::List,
            Wrap::Record => Head::Record,
            Wrap::Has => Head::Has,
        }
    }
}
