ghost use Rattle.std.specs.Prelude.{◌≤◌};
ghost use Rattle.unifier.specs.Solvers.{Grown as HasGrown};

use super::cell::What;
use super::solver::Solver;
use ground::code::Code;
use ground::sort::Sort;
use system::fault::SystemFault;

impl<const HEADS: u8> Solver<HEADS> {
    // One cell more for one call more, refused exactly where no cell is left.
    pub(crate) fn grow(&mut self, what: What, sort: Sort) -> Result<Code, SystemFault>
        requires { self.old.calls ≤ 4096 }
        ensures { HasGrown HEADS self.old what sort result self.new }
    {
        let at = self.store.cells.len();
        if at >= self.store.limit {
            return Err(SystemFault::NoCells);
        }
        self.store.push(what, sort);
        self.calls += 1;
        Ok(Code(at as u32))
    }
}
