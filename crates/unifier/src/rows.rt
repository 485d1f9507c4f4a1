ghost use Rattle.std.specs.Prelude.{◌≡◌, ◌+◌, ◌<◌, ◌≤◌, ◌++◌, length, ◌≢◌};
ghost use Rattle.stack.specs.Stacks.{held, room};
ghost use Rattle.cells.specs.Cells.{what_at, sort_at, Root};
ghost use Rattle.cells.specs.Widths.{built};
ghost use Rattle.unifier.specs.Fine.{Peers};
ghost use Rattle.unifier.specs.Stores.{Queued, Lasts, Later, waits};
ghost use Rattle.unifier.specs.Turns.{Rowed, Came, Spent};

use super::misfit::Misfit;
use super::note::note_fields;
use super::store::Store;
use super::waiting::Waiting;
use super::walk::walk;

impl Store {
    // A row and another row or the empty one become one: each gets the other's labels, their fields are next, and then the tails.
    pub(crate) fn join_rows(
        &mut self,
        waiting: &mut Waiting,
        a: usize,
        b: usize,
    ) -> Result<(), Misfit>
        requires queued { Queued self.old waiting.old }
        requires peers { Peers self.old.cells.items a b }
        requires apart { a ≢ b }
        requires row { Rowed (what_at self.old.cells.items a) }
        requires root { Root (what_at self.old.cells.items b) }
        requires built { built (what_at self.old.cells.items b) ≡ 1 }
        requires slots { length (held waiting.old.fields) + 24 ≤ room waiting.old.fields }
        requires slot { length (held waiting.old.pending) < room waiting.old.pending }
        ensures came { Came self.old.limit self.old.cells.items a b (waits waiting.old) result self.new.cells.items (waits waiting.new) }
        ensures spent { Spent self.old.limit (sort_at self.old.cells.items a) self.old.cells.items (held waiting.old.pending) result self.new.cells.items (held waiting.new.fields) (held waiting.new.pending) }
        ensures later { Later self.old self.new }
        ensures lasts { Lasts waiting.old waiting.new }
    {
        let mut left = walk(self.cells.as_slice(), a);
        let mut right = walk(self.cells.as_slice(), b);
        self.widen(&mut left, &mut right)?;
        self.link(a, b);
        note_fields(&mut waiting.fields, &left, &right);
        self.join_tails(&mut waiting.pending, left.tail, right.tail);
        Ok(())
    }
}
