ghost use Rattle.std.specs.Prelude.{◌≡◌, ◌≤◌, ◌+◌, ltb, [], ◌∷◌, ◌++◌, length, take, if◌then◌else◌, IfOk, Ok as Fine, Err as Wrong};
ghost use Rattle.system.specs.declared.fault.SystemFault.TheVariants.{NoCells as Full};
ghost use Rattle.model.specs.Models.{apt};

use crate::cell::{Bind, Cell, Saved};
use ground::code::Code;
use ground::head::Head;
use std::alloc::{AllocError, Global};
use std::marker::Model;
use system::fault::SystemFault;

// The cells of a model, the binds of its open codes, and how many cells there can be. Cells and binds are only added, so that their numbers tell what
// there was. All memory is taken when it is built.
#[derive(Drop)]
pub struct Codes {
    pub(crate) cells: Vec<Cell>,
    pub(crate) binds: Vec<Bind>,
    pub(crate) limit: usize,
}

impl Model for Codes {
    ghost use Rattle.std.specs.Prelude.{◌≤◌, vec_len, vec_capacity};
    ghost use Rattle.model.specs.Stock.{Stock};

    ghost Value = { Stock };

    ghost view = { λ c. record { cells = c.cells.items; binds = c.binds.items; limit = c.limit } };

    ghost invariant = { λ c. (c.limit ≤ 4096) × (vec_len c.cells ≤ c.limit) × (c.limit ≤ vec_capacity c.cells) × (c.limit ≤ vec_capacity c.binds) };
}

impl Codes {
    // No codes, with room for so many.
    pub(crate) fn new(heap: Global, limit: usize) -> Result<Codes, AllocError>
        requires { limit ≤ 4096 }
        ensures { IfOk result (λ c. c ≡ record { cells = []; binds = []; limit = limit }) }
    {
        let cells = Vec::with_capacity(heap, limit)?;
        let binds = Vec::with_capacity(heap, limit)?;
        Ok(Codes {
            cells,
            binds,
            limit,
        })
    }

    // How many there can be.
    pub(crate) fn limit(&self) -> usize
        ensures limit { result ≡ self.now.limit }
        ensures small { result ≤ 4096 }
    {
        self.limit
    }

    // How many cells and binds there are.
    pub(crate) fn size(&self) -> Saved
        ensures { result ≡ record { cells = length self.now.cells; binds = length self.now.binds } }
    {
        Saved {
            cells: self.cells.len(),
            binds: self.binds.len(),
        }
    }

    // Is there such a code?
    pub(crate) fn knows(&self, code: u32) -> bool
        ensures { result ≡ ltb code (length self.now.cells) }
    {
        (code as usize) < self.cells.len()
    }

    // Is this a head of the first five over codes that there are?
    pub(crate) fn apt(&self, head: Head, first: u32, second: u32) -> bool
        ensures { result ≡ apt (length self.now.cells) head first second }
    {
        head.number() < 5
            && (!head.has_first() || self.knows(first))
            && (!head.has_second() || self.knows(second))
    }

    // One cell more, while there is room.
    pub(crate) fn add(&mut self, cell: Cell) -> Result<Code, SystemFault>
        ensures answer { result ≡ (if ltb (length self.old.cells) self.old.limit then Fine (record { 0 = length self.old.cells }) else Wrong Full) }
        ensures codes { self.new ≡ record { cells = (if ltb (length self.old.cells) self.old.limit then self.old.cells ++ cell ∷ [] else self.old.cells); binds = self.old.binds; limit = self.old.limit } }
    {
        let n = self.cells.len();
        if n < self.limit {
            self.cells.push_reserved(cell);
            Ok(Code(n as u32))
        } else {
            Err(SystemFault::NoCells)
        }
    }

    // What there was at this size.
    pub(crate) fn back_to(&mut self, size: Saved)
        ensures { self.new ≡ record { cells = take size.cells self.old.cells; binds = take size.binds self.old.binds; limit = self.old.limit } }
    {
        self.cells.truncate(size.cells);
        self.binds.truncate(size.binds);
    }
}
