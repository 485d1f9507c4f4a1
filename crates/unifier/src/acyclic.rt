ghost use Rattle.std.specs.Prelude.{◌≡◌, ℕ, ◌+◌, ◌^◌, ◌<◌, ◌≤◌, length};
ghost use Rattle.unifier.specs.Fine.{Fine};
ghost use Rattle.unifier.specs.Swept.{named, Cleared};

use super::cell::Cell;
use super::cycle::Cycle;
use super::seen::Seen;
use super::undo::Undo;

impl Seen {
    // Before the clock could run out, all marks are cleared and it starts anew.
    pub(crate) fn rewind(&mut self)
        ensures clock { self.new.clock ≤ 2 ^ 62 }
        ensures sized { length self.new.marks.items ≡ length self.old.marks.items }
    {
        if self.clock <= 4_611_686_018_427_387_904 {
            return;
        }
        self.marks.fill(0);
        self.clock = 0;
    }

    // Nothing refers to itself, where that could only be through what the trail names from an entry on, or through a cell from one on.
    pub(crate) fn acyclic(
        &mut self,
        cells: &[Cell],
        trail: &[Undo],
        first: usize,
        from: usize,
    ) -> Result<(), Cycle>
        requires fine { Fine cells.now }
        requires cells { first ≤ length cells.now }
        requires trail { from ≤ length trail.now }
        requires within { (j : ℕ) → from ≤ j → j < length trail.now → named trail.now j < length cells.now }
        requires sized { length cells.now ≤ length self.old.marks.items }
        requires fits { self.old.clock + 1 + length self.old.marks.items < 2 ^ 63 }
        ensures { Cleared cells.now self.old.marks.items self.old.clock trail.now first from result self.new.marks.items self.new.clock }
    {
        let base = self.clock;
        self.clock += 1;
        for e in &trail[from..] {
            self.visit(cells, base, e.at as usize)?;
        }
        for c in first..cells.len() {
            self.visit(cells, base, c)?;
        }
        Ok(())
    }
}
