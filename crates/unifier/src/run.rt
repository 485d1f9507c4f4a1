ghost use Rattle.std.specs.Prelude.{◌≡◌, ◌+◌, ◌≤◌, ◌++◌, length};
ghost use Rattle.stack.specs.Stacks.{held, room};
ghost use Rattle.unifier.specs.Stores.{Queued, Lasts, Later, waits};
ghost use Rattle.unifier.specs.Turns.{Ran, trees};

use super::misfit::Misfit;
use super::store::Store;
use super::waiting::Waiting;

impl Store {
    // Turn after turn, until no pair is left, two heads differ, or cells do not suffice.
    pub(crate) fn run(&mut self, waiting: &mut Waiting) -> Result<(), Misfit>
        requires queued { Queued self.old waiting.old }
        requires free { 24 ≤ room waiting.old.fields }
        requires slots { length (held waiting.old.pending) + 1 + trees self.old.limit self.old.cells.items ≤ room waiting.old.pending }
        ensures ran { Ran self.old.limit self.old.cells.items (waits waiting.old) result self.new.cells.items }
        ensures later { Later self.old self.new }
        ensures lasts { Lasts waiting.old waiting.new }
    {
        while let Some(p) = waiting.next() {
            self.step(waiting, p.left as usize, p.right as usize)?;
        }
        Ok(())
    }
}
