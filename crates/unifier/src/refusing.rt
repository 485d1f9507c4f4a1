ghost use Rattle.std.specs.Prelude.{Err as Wrong};
ghost use Rattle.system.specs.Faults.{system_number, system_layer};
ghost use Rattle.system.specs.Replies.{plain};
ghost use Rattle.system.specs.Requests.{Request};
ghost use Rattle.unifier.specs.Solvers.{sure, asks};

use super::solver::Solver;
use super::sorts::is_code_of;
use ground::code::Code;
use ground::sort::Sort;
use system::fault::SystemFault;

impl<const HEADS: u8> Solver<HEADS> {
    // What a demand is refused with: there are no classes.
    pub fn refuse_demand(&self, class: u8, code: Code) -> SystemFault
        requires { sure HEADS self.now }
        ensures { asks HEADS self.now (Request.demand class code.0) (plain system_number system_layer (Wrong result)) self.now }
    {
        if class > 3 || !is_code_of(self.store.cells.as_slice(), code.0 as usize, Sort::Type) {
            return SystemFault::Unknown;
        }
        SystemFault::NoClasses
    }
}
