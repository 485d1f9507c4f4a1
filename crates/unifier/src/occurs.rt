ghost use Rattle.std.specs.Prelude.{◌+◌, ◌^◌, ◌<◌, ◌≤◌, length};
ghost use Rattle.unifier.specs.Marks.{Over, Tops, Walkable, Walked, WalkedBelow};

use super::cell::{Cell, What};
use super::cycle::Cycle;
use super::seen::Seen;

impl Seen {
    // No cell is met again from c before it is done. A mark is at most `base` where its cell was not seen, base + 1 while it is under way, and
    // then the time at which it was done: a number that falls along references.
    #[cycle(below_visit)]
    pub(crate) fn visit(&mut self, cells: &[Cell], base: usize, c: usize) -> Result<(), Cycle>
        requires walkable { Walkable cells.now base self.old.marks.items self.old.clock }
        requires known { c < length cells.now }
        requires over { Over cells.now base self.old.marks.items c }
        ensures { Walked cells.now base self.old.marks.items self.old.clock c result self.new.marks.items self.new.clock }
    {
        let m = self.marks[c];
        if m > base + 1 {
            return Ok(());
        }
        if m == base + 1 {
            return Err(Cycle);
        }
        self.marks[c] = base + 1;
        self.below(cells, base, c)?;
        self.clock += 1;
        self.marks[c] = self.clock;
        Ok(())
    }

    #[cycle(below_visit)]
    fn below(&mut self, cells: &[Cell], base: usize, c: usize) -> Result<(), Cycle>
        requires walkable { Walkable cells.now base self.old.marks.items self.old.clock }
        requires known { c < length cells.now }
        requires tops { Tops cells.now base self.old.marks.items c }
        ensures { WalkedBelow cells.now base self.old.marks.items self.old.clock c result self.new.marks.items self.new.clock }
    {
        let cell = cells[c];
        match cell.what {
            What::Open | What::Leaf(_) => Ok(()),
            What::Link(x) | What::One(_, x) => self.visit(cells, base, x as usize),
            What::Two(x, y) | What::Row(_, x, y) => {
                self.visit(cells, base, x as usize)?;
                self.visit(cells, base, y as usize)
            }
        }
    }
}
