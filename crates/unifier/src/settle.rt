ghost use Rattle.std.specs.Prelude.{◌≡◌, ◌+◌, ◌<◌, ◌≤◌, length};
ghost use Rattle.unifier.specs.Fine.{Peers, Fine};
ghost use Rattle.unifier.specs.Settled.{Settled};

use super::cell::Pair;
use super::misfit::Misfit;
use super::note::note;
use super::store::Store;
use super::waiting::Waiting;
use stack::store::Stack;

impl Store {
    // Makes two cells of one sort equal, with all that follows; where that cannot be, cells and trail are the very ones that were.
    pub(crate) fn settle(&mut self, pairs: &mut [Pair], a: usize, b: usize) -> Result<(), Misfit>
        requires fine { Fine self.old.cells.items }
        requires peers { Peers self.old.cells.items a b }
        requires slots { self.old.limit + 2 ≤ length pairs.old }
        ensures settled { Settled self.old.limit self.old.cells.items self.old.trail.items a b result self.new.cells.items self.new.trail.items }
        ensures limit { self.new.limit ≡ self.old.limit }
        ensures slots { length pairs.new ≡ length pairs.old }
    {
        let cells = self.cells.len();
        let trail = self.trail.len();
        let mut slots = [Pair { left: 0, right: 0 }; 24];
        let mut waiting = Waiting {
            fields: Stack::over(&mut slots),
            pending: Stack::over(pairs),
        };
        note(&mut waiting.pending, a as u16, b as u16);
        if let Err(misfit) = self.run(&mut waiting) {
            self.back_to(cells, trail);
            return Err(misfit);
        }
        Ok(())
    }
}
