// The calls of a bare system, behind the line that chose it.
ghost use Rattle.std.specs.Prelude.{◌≡◌, ◌≤◌, length, IfOk};
ghost use Rattle.classes.specs.Layers.{sure};

use crate::mode::Mode;
use calls::serve::{Served, serve};
use classes::layer::Layer;
use classes::unbuilt::Unbuilt;
use lines::line::Pile;
use lines::lines::Lines;
use std::alloc::{AllocError, Global};
use system::fault::NewFault;
use system::system::System;
use unifier::solver::{Rows, Trees};

// Four classes over a system that was just built. It is new and has none, so that want of memory alone is left.
fn layered<S: System + Drop>(heap: Global, built: Result<S, NewFault>) -> Result<Layer<S>, NewFault>
    requires { IfOk built (λ s. S.System.ok s) }
    ensures { IfOk result (λ l. sure S.System.ok S.System.CLASSES S.System.meaning l) }
{
    match Layer::new(heap, built?) {
        Ok(layer) => Ok(layer),
        Err(Unbuilt { below: _, want: _ }) => Err(NewFault::Memory),
    }
}

// The answers up to the next line that is no call of this system.
pub(crate) fn bare<'a>(
    heap: Global,
    pile: Pile,
    cells: u32,
    mode: Mode,
    lines: Lines<'a>,
) -> Result<Served<'a>, AllocError>
    ensures { IfOk result (λ s. length s.lines.rest.now ≤ length lines.entry.rest.now) }
{
    let mode = mode.into();
    let cells = cells as usize;
    match (pile.records, pile.classes) {
        (false, false) => serve(heap, Trees::new(heap, cells), mode, lines),
        (true, false) => serve(heap, Rows::new(heap, cells), mode, lines),
        (false, true) => serve(heap, layered(heap, Trees::new(heap, cells)), mode, lines),
        (true, true) => serve(heap, layered(heap, Rows::new(heap, cells)), mode, lines),
    }
}
