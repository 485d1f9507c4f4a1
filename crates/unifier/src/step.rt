ghost use Rattle.std.specs.Prelude.{◌≡◌, ◌+◌, ◌<◌, ◌≤◌, ◌++◌, length, ◌≢◌};
ghost use Rattle.stack.specs.Stacks.{held, room};
ghost use Rattle.cells.specs.Cells.{what_at, sort_at, Root};
ghost use Rattle.unifier.specs.Fine.{Peers, Rowly};
ghost use Rattle.unifier.specs.Stores.{Queued, Lasts, Later, waits};
ghost use Rattle.unifier.specs.Turns.{Came, Spent};

use super::find::find;
use super::meet::{Meet, meets};
use super::misfit::Misfit;
use super::note::note;
use super::store::Store;
use super::waiting::Waiting;

impl Store {
    // Two roots become one; what their heads are over waits for its turn. An open root is linked to the other, whatever the ranks.
    fn join(&mut self, waiting: &mut Waiting, from: usize, to: usize) -> Result<(), Misfit>
        requires queued { Queued self.old waiting.old }
        requires peers { Peers self.old.cells.items from to }
        requires apart { from ≢ to }
        requires one { Root (what_at self.old.cells.items from) }
        requires two { Root (what_at self.old.cells.items to) }
        requires free { Rowly (sort_at self.old.cells.items from) → length (held waiting.old.fields) + 24 ≤ room waiting.old.fields }
        requires slots { length (held waiting.old.pending) + 2 ≤ room waiting.old.pending }
        ensures came { Came self.old.limit self.old.cells.items from to (waits waiting.old) result self.new.cells.items (waits waiting.new) }
        ensures spent { Spent self.old.limit (sort_at self.old.cells.items from) self.old.cells.items (held waiting.old.pending) result self.new.cells.items (held waiting.new.fields) (held waiting.new.pending) }
        ensures later { Later self.old self.new }
        ensures lasts { Lasts waiting.old waiting.new }
    {
        let f = self.cells[from];
        let t = self.cells[to];
        let m = meets(f.what, t.what);
        match m {
            Meet::Clash => return Err(Misfit::Clash),
            Meet::Left => self.link(from, to),
            Meet::Right => self.link(to, from),
            Meet::Same => {}
            Meet::One(p) => {
                self.link(from, to);
                note(&mut waiting.pending, p.left, p.right);
            }
            Meet::Two(p, q) => {
                self.link(from, to);
                note(&mut waiting.pending, q.left, q.right);
                note(&mut waiting.pending, p.left, p.right);
            }
            Meet::Over => return self.join_rows(waiting, from, to),
            Meet::Under => return self.join_rows(waiting, to, from),
        }
        Ok(())
    }

    // One turn: the classes of a and b become one, or that cannot be.
    pub(crate) fn step(&mut self, waiting: &mut Waiting, a: usize, b: usize) -> Result<(), Misfit>
        requires queued { Queued self.old waiting.old }
        requires peers { Peers self.old.cells.items a b }
        requires free { Rowly (sort_at self.old.cells.items a) → length (held waiting.old.fields) + 24 ≤ room waiting.old.fields }
        requires slots { length (held waiting.old.pending) + 2 ≤ room waiting.old.pending }
        ensures came { Came self.old.limit self.old.cells.items a b (waits waiting.old) result self.new.cells.items (waits waiting.new) }
        ensures spent { Spent self.old.limit (sort_at self.old.cells.items a) self.old.cells.items (held waiting.old.pending) result self.new.cells.items (held waiting.new.fields) (held waiting.new.pending) }
        ensures later { Later self.old self.new }
        ensures lasts { Lasts waiting.old waiting.new }
    {
        let x = find(self.cells.as_slice(), a);
        let y = find(self.cells.as_slice(), b);
        if x == y {
            return Ok(());
        }
        if self.cells[x].rank <= self.cells[y].rank {
            self.join(waiting, x, y)
        } else {
            self.join(waiting, y, x)
        }
    }
}
