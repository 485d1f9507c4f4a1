ghost use Rattle.std.specs.Prelude.{◌≡◌};
ghost use Rattle.unifier.specs.Meets.{meet_of};

use super::cell::{Pair, What};

// How two roots of one sort come together: their heads differ; the first or the second is open; both are the same leaf, or the same head over these
// pairs; the first is a row and the second one too, or empty; or the first is empty and the second a row.
#[derive(Clone, Copy)]
pub enum Meet {
    Clash,
    Left,
    Right,
    Same,
    One(Pair),
    Two(Pair, Pair),
    Over,
    Under,
}

pub(crate) fn meets(a: What, b: What) -> Meet
    ensures { result ≡ meet_of a b }
{
    match (a, b) {
        (What::Link(_), _) => Meet::Clash,
        (What::Open, _) => Meet::Left,
        (_, What::Open) => Meet::Right,
        (What::Leaf(h), What::Leaf(k)) if h == k => Meet::Same,
        (What::Leaf(_), What::Row(_, _, _)) => Meet::Under,
        (What::One(h, x), What::One(k, y)) if h == k => Meet::One(Pair { left: x, right: y }),
        (What::Two(x, y), What::Two(z, w)) => Meet::Two(
            Pair { left: x, right: z },
            Pair { left: y, right: w },
        ),
        (What::Row(_, _, _), What::Leaf(_)) | (What::Row(_, _, _), What::Row(_, _, _)) =>
            Meet::Over,
        _ => Meet::Clash,
    }
}
