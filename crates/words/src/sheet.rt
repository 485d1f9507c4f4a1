ghost use Rattle.std.specs.Prelude.{◌≡◌, ◌≤◌, vec_len};
ghost use Rattle.words.specs.declared.sheet.SheetFault.TheVariants.{Memory};

use ground::name::Name;
use std::alloc::AllocError;

mod lookup;
mod reading;

// The labels that scripts may use, in the order of their numbers: at most 24, each once.
#[derive(Drop)]
pub struct Sheet {
    labels: Vec<Name>,
    ghost few: { vec_len labels ≤ 24 },
}

// Why there is no sheet: the text is not one, or there was no memory for it.
#[derive(Clone, Copy, PartialEq, Eq, Debug)]
pub enum SheetFault {
    Bad,
    Memory,
}

impl From<AllocError> for SheetFault {
    ghost from_gives = { λ _ fault. fault ≡ Memory };

    fn from(_: AllocError) -> SheetFault {
        SheetFault::Memory
    }
}
