ghost use Rattle.std.specs.Prelude.{◌≡◌, ◌+◌, ◌<◌, ◌≤◌, [], ◌∷◌, ◌++◌, length, IfOk};
ghost use Rattle.unifier.specs.Fine.{Fine, absent_cell, cell_of};

use super::cell::{Cell, What};
use super::store::Store;
use cells::Bare;
use ground::sort::Sort;
use std::alloc::{AllocError, Global};

impl Store {
    // No cell but the one absent field that is its own: a row lends it for every label that it does not have.
    pub(crate) fn new(heap: Global, capacity: usize) -> Result<Store, AllocError>
        requires { capacity ≤ 4096 }
        ensures fine { IfOk result (λ s. Fine s.cells.items) }
        ensures made { IfOk result (λ s. (s.cells.items ≡ absent_cell ∷ []) × (s.trail.items ≡ []) × (s.limit ≡ capacity + 1)) }
    {
        let limit = capacity + 1;
        let mut cells = Vec::with_capacity(heap, limit)?;
        let trail = Vec::with_capacity(heap, 3 * limit)?;
        cells.push_reserved(Cell {
            what: What::Leaf(Bare::Absent),
            rank: 0,
            sort: Sort::Field,
        });
        Ok(Store {
            cells,
            trail,
            limit,
        })
    }

    // One cell more, where one is left.
    pub(crate) fn push(&mut self, what: What, sort: Sort)
        requires { length self.old.cells.items < self.old.limit }
        ensures cells { self.new.cells.items ≡ self.old.cells.items ++ cell_of what sort ∷ [] }
        ensures trail { self.new.trail.items ≡ self.old.trail.items }
        ensures limit { self.new.limit ≡ self.old.limit }
    {
        self.cells.push_reserved(Cell {
            what,
            rank: 0,
            sort,
        });
    }
}
