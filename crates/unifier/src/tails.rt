ghost use Rattle.std.specs.Prelude.{◌≡◌, ℕ, ◌+◌, ◌<◌, ◌≤◌, List, ◌∷◌, ◌++◌, length};
ghost use Rattle.stack.specs.Stacks.{held, room};
ghost use Rattle.cells.specs.declared.Pair.{Pair as APair};
ghost use Rattle.cells.specs.Steps.{pair};
ghost use Rattle.unifier.specs.Fine.{Fine};
ghost use Rattle.unifier.specs.Stores.{Kept, Later};
ghost use Rattle.unifier.specs.Turns.{Alike, Tails, Left, trees};

use super::cell::{Pair, What};
use super::note::note;
use super::store::Store;
use stack::store::Stack;

impl Store {
    // The tails of two rows. Two open ones lack the same labels, and wait for their turn; one alone becomes empty, as the other is.
    pub(crate) fn join_tails(&mut self, pending: &mut Stack<Pair>, a: usize, b: usize)
        requires fine { Fine self.old.cells.items }
        requires tails { Tails self.old.cells.items a b }
        requires alike { Alike self.old.cells.items (held pending.old) }
        requires slot { length (held pending.old) < room pending.old }
        ensures left { (fs : List (APair ℕ)) → Alike self.old.cells.items fs → Left 0 self.old.cells.items (pair a b ∷ (fs ++ held pending.old)) self.new.cells.items (fs ++ held pending.new) }
        ensures spent { length (held pending.new) + trees self.old.limit self.new.cells.items ≤ length (held pending.old) + 1 + trees self.old.limit self.old.cells.items }
        ensures later { Later self.old self.new }
        ensures kept { Kept pending.old pending.new }
    {
        let one = self.cells[a];
        let other = self.cells[b];
        if let What::Open = one.what {
            if let What::Open = other.what {
                note(pending, a as u16, b as u16);
            } else {
                self.empty(a);
            }
        } else if let What::Open = other.what {
            self.empty(b);
        }
    }
}
