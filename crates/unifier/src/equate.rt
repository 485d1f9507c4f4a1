ghost use Rattle.std.specs.Prelude.{◌≡◌, ℕ, ◌+◌, ◌<◌, ◌≤◌, length};
ghost use Rattle.unifier.specs.Equated.{Equated};
ghost use Rattle.unifier.specs.Fine.{Peers, Fine};
ghost use Rattle.unifier.specs.Solutions.{Means};

use super::cell::Pair;
use super::cycle::Cycle;
use super::seen::Seen;
use super::store::Store;
use system::fault::SystemFault;

impl Store {
    // Two cells of one sort become equal; or their heads differ, a value would be a part of itself, or the cells do not suffice, and nothing is changed.
    // All pairs first, then the walk for cycles over what was written and added.
    pub(crate) fn equate(
        &mut self,
        seen: &mut Seen,
        pairs: &mut [Pair],
        a: usize,
        b: usize,
    ) -> Result<(), SystemFault>
        requires fine { Fine self.old.cells.items }
        requires peers { Peers self.old.cells.items a b }
        requires slots { self.old.limit + 2 ≤ length pairs.old }
        requires sized { length seen.old.marks.items ≡ self.old.limit }
        ensures equated { Equated self.old.limit self.old.cells.items self.old.trail.items a b result self.new.cells.items self.new.trail.items }
        ensures means { Means self.old.limit self.old.cells.items a b result self.new.cells.items }
        ensures limit { self.new.limit ≡ self.old.limit }
        ensures sized { length seen.new.marks.items ≡ self.old.limit }
    {
        let cells = self.cells.len();
        let trail = self.trail.len();
        self.settle(pairs, a, b)?;
        seen.rewind();
        if let Err(Cycle) = seen.acyclic(
            self.cells.as_slice(),
            self.trail.as_slice(),
            cells,
            trail,
        ) {
            self.back_to(cells, trail);
            return Err(SystemFault::Cyclic);
        }
        Ok(())
    }
}
