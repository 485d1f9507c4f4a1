// The calls of a new system, line by line.
ghost use Rattle.std.specs.Prelude.{◌≡◌, ◌≤◌, length, IfOk};

use crate::book::Book;
use crate::out::{Mode, Out};
use crate::session::Session;
use lines::lines::Lines;
use std::alloc::{AllocError, Global};
use system::fault::NewFault;
use system::system::System;

// The answers, and what is still to be read.
#[derive(Drop)]
pub struct Served<'a> {
    pub out: Out,
    pub lines: Lines<'a>,
}

// Hears the calls of a system that was just built, up to a line that chooses another or gives it a sheet. Marks that are then still open are taken
// back.
pub fn serve<'a, S: System + Drop>(
    heap: Global,
    built: Result<S, NewFault>,
    mode: Mode,
    lines: Lines<'a>,
) -> Result<Served<'a>, AllocError>
    requires { IfOk built (λ s. S.System.ok s) }
    ensures { IfOk result (λ s. length s.lines.rest.now ≤ length lines.entry.rest.now) }
{
    let Ok(system) = built else {
        return Err(AllocError);
    };
    let mut session = Session {
        system,
        book: Book::new(heap),
        out: Out::new(heap, mode),
    };
    let stop = session.hear(lines, false)?;
    let Session { out, .. } = session;
    Ok(Served {
        out,
        lines: stop.lines,
    })
}
