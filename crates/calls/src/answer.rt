// What the system is asked of a call, and what is answered.
ghost use Rattle.std.specs.Prelude.{◌≡◌, [], ◌∷◌, ◌++◌, length, MatchResult};
ghost use Rattle.calls.specs.Asks.{Told};
ghost use Rattle.calls.specs.declared.answer.Answer.TheVariants.{Made as MadeAs};
ghost use Rattle.calls.specs.declared.answer.Unanswered.TheVariants.{Memory as NoMemory};

use crate::book::{Book, Made};
use ground::code::Code;
use lines::ask::Ask;
use std::alloc::AllocError;
use system::system::System;
use values::kind::Kind;

#[derive(Clone, Copy)]
pub enum Answer {
    // A new code, by its number.
    Made(usize),
    Done,
}

// Why a call is not answered: the system refuses it, or there is no memory to note its code.
#[derive(Clone, Copy, Drop)]
pub enum Unanswered<F: Drop> {
    Refused(F),
    Memory,
}

impl<F: Drop> From<AllocError> for Unanswered<F> {
    ghost from_gives = { λ _ u. u ≡ NoMemory };

    fn from(_: AllocError) -> Unanswered<F> {
        Unanswered::Memory
    }
}

impl Book {
    // A new code takes the next number.
    fn add(&mut self, code: Code, kind: Kind) -> Result<Answer, AllocError>
        ensures { MatchResult result (λ a. (a ≡ MadeAs (length self.old.made.items)) × (self.new.made.items ≡ self.old.made.items ++ record { code = code; kind = kind } ∷ [])) (λ _. self.new.made.items ≡ self.old.made.items) }
    {
        let number = self.made.len();
        self.made.push(Made { code, kind })?;
        Ok(Answer::Made(number))
    }
}

// Asks the system for what the call says, with the codes of its numbers.
pub fn perform<S: System>(
    system: &mut S,
    book: &mut Book,
    ask: Ask,
) -> Result<Answer, Unanswered<S::Fault>>
    requires { S.System.ok system.old }
    ensures fine { S.System.ok system.new }
    ensures told { Told S.System.asked S.Fault.number S.Fault.layer system.old book.old.made.items ask result system.new book.new.made.items }
{
    match ask {
        Ask::Fresh(sort) => {
            let code = system.fresh(sort).map_err(Unanswered::Refused)?;
            Ok(book.add(code, sort.into())?)
        }
        Ask::Build {
            head,
            first,
            second,
            label,
            lacked,
        } => {
            let code = system
                .build(head, book.child(first), book.child(second), label, lacked)
                .map_err(Unanswered::Refused)?;
            Ok(book.add(code, head.into())?)
        }
        Ask::Equate(a, b) => {
            system
                .equate(book.code(a), book.code(b))
                .map_err(Unanswered::Refused)?;
            Ok(Answer::Done)
        }
        Ask::Demand(class, code) => {
            system
                .demand(class, book.code(code))
                .map_err(Unanswered::Refused)?;
            Ok(Answer::Done)
        }
    }
}
