ghost use Rattle.std.specs.Prelude.{◌≡◌, ◌<◌, length, set};
ghost use Rattle.cells.specs.declared.What.TheVariants.{Open, Leaf};
ghost use Rattle.cells.specs.declared.Bare.TheVariants.{Empty};
ghost use Rattle.cells.specs.Cells.{what_at, rank_at, sort_at};
ghost use Rattle.unifier.specs.Stores.{Later};

use super::cell::{Cell, What};
use super::store::Store;
use cells::Bare;

impl Store {
    // An open row becomes the empty one where it stands. It is not linked to another, whose set of lacked labels may differ.
    pub(crate) fn empty(&mut self, at: usize)
        requires known { at < length self.old.cells.items }
        requires open { what_at self.old.cells.items at ≡ Open }
        ensures cells { self.new.cells.items ≡ set self.old.cells.items at (record { what = Leaf Empty; rank = rank_at self.old.cells.items at; sort = sort_at self.old.cells.items at }) }
        ensures later { Later self.old self.new }
    {
        let was = self.cells[at];
        self.put(
            at,
            Cell {
                what: What::Leaf(Bare::Empty),
                ..was
            },
        );
    }
}
