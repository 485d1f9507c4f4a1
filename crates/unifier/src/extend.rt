ghost use Rattle.std.specs.Prelude.{◌≡◌, suc, ◌+◌, ◌<◌, ◌≤◌, length, vec_len};
ghost use Rattle.cells.specs.declared.What.TheVariants.{Open};
ghost use Rattle.cells.specs.Cells.{what_at, rank_at, extended};
ghost use Rattle.unifier.specs.Stores.{Later};

use super::cell::{Cell, What};
use super::store::Store;
use ground::sort::{Labels, Sort};

impl Store {
    // An open tail becomes a row with the label over that field and a new open tail, which is answered: two cells more.
    pub(crate) fn extend(&mut self, tail: usize, label: u8, field: u16, rest: Labels) -> usize
        requires known { tail < vec_len self.old.cells }
        requires open { what_at self.old.cells.items tail ≡ Open }
        requires low { rank_at self.old.cells.items tail ≤ vec_len self.old.cells }
        requires two { vec_len self.old.cells + 2 ≤ self.old.limit }
        ensures answer { result ≡ suc (length self.old.cells.items) }
        ensures cells { self.new.cells.items ≡ extended self.old.cells.items tail label field rest }
        ensures later { Later self.old self.new }
    {
        let row = self.cells.len();
        let sort = self.cells[tail].sort;
        self.push(What::Row(label, field, (row + 1) as u16), sort);
        self.push(What::Open, Sort::Row(rest));
        self.link(tail, row);
        row + 1
    }
}
