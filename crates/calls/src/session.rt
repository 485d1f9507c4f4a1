use crate::book::Book;
use crate::out::Out;
use system::system::System;

// A system that lines are heard for, the codes by their numbers, and what was answered.
// That the system is `ok` stands in each contract: a ghost field takes no fact that may have several proofs, as this one may.
#[derive(Drop)]
pub(crate) struct Session<S: System + Drop> {
    pub(crate) system: S,
    pub(crate) book: Book,
    pub(crate) out: Out,
}
