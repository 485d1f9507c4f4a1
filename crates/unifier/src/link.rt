ghost use Rattle.std.specs.Prelude.{◌≡◌, ◌+◌, ◌*◌, ◌<◌, ◌≤◌, [], ◌∷◌, ◌++◌, length, vec_len, ◌≢◌, slice_index_or, slice_set};
ghost use Rattle.cells.specs.Cells.{Root, what_at, rank_at, none, linked};
ghost use Rattle.unifier.specs.Stores.{Later};
ghost use Rattle.unifier.specs.Trails.{dues, Movable};

use super::cell::{Cell, What};
use super::store::Store;
use super::undo::Undo;

impl Store {
    // Writes a cell, and notes in the trail what it was.
    pub(crate) fn put(&mut self, at: usize, cell: Cell)
        requires known { at < vec_len self.old.cells }
        requires roomy { length self.old.trail.items + 1 + dues (slice_set self.old.cells.items at cell) ≤ 3 * length self.old.cells.items }
        ensures cells { self.new.cells.items ≡ slice_set self.old.cells.items at cell }
        ensures trail { self.new.trail.items ≡ self.old.trail.items ++ record { at = at; was = slice_index_or self.old.cells.items at none } ∷ [] }
        ensures limit { self.new.limit ≡ self.old.limit }
    {
        let was = self.cells[at];
        self.cells[at] = cell;
        self.trail.push_reserved(Undo { at: at as u16, was });
    }

    // Links one root, which is no leaf, to another, whose rank it raises where it must.
    pub(crate) fn link(&mut self, from: usize, to: usize)
        requires low { rank_at self.old.cells.items from ≤ vec_len self.old.cells }
        requires from { from < vec_len self.old.cells }
        requires to { to < vec_len self.old.cells }
        requires apart { from ≢ to }
        requires one { Movable (what_at self.old.cells.items from) }
        requires two { Root (what_at self.old.cells.items to) }
        ensures cells { self.new.cells.items ≡ linked self.old.cells.items from to }
        ensures later { Later self.old self.new }
    {
        let f = self.cells[from];
        let t = self.cells[to];
        self.put(
            from,
            Cell {
                what: What::Link(to as u16),
                ..f
            },
        );
        self.put(
            to,
            Cell {
                rank: t.rank.max(f.rank + 1),
                ..t
            },
        );
    }
}
