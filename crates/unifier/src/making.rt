ghost use Rattle.std.specs.Prelude.{◌≡◌, ◌⊎◌};
ghost use Rattle.unifier.specs.Solvers.{Built as IsBuilt};

use super::cell::Pair;
use super::saved::Saved;
use super::seen::Seen;
use super::solver::Solver;
use super::store::Store;
use std::alloc::Global;
use system::fault::NewFault;

impl<const HEADS: u8> Solver<HEADS> {
    // A new solver of a capacity from 16 to 4,096. Want of memory is met here and nowhere else.
    pub fn new(heap: Global, capacity: usize) -> Result<Solver<HEADS>, NewFault>
        ensures { (HEADS ≡ 5) ⊎ (HEADS ≡ 10) → IsBuilt HEADS capacity result }
    {
        if capacity < 16 || capacity > 4096 {
            return Err(NewFault::Capacity);
        }
        let store = Store::new(heap, capacity)?;
        let marks = vec![in heap; 0; capacity + 1]?;
        let pairs = vec![in heap; Pair { left: 0, right: 0 }; capacity + 3]?;
        let saved = Vec::with_capacity(heap, 8)?;
        Ok(Solver {
            store,
            seen: Seen { marks, clock: 0 },
            pairs,
            saved,
            calls: 0,
        })
    }
}
