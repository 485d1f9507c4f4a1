ghost use Rattle.std.specs.Prelude.{◌≡◌, ◌<◌, length};
ghost use Rattle.system.specs.Requests.{Request};
ghost use Rattle.system.specs.Replies.{plain};
ghost use Rattle.system.specs.Faults.{system_number, system_layer};
ghost use Rattle.model.specs.Models.{sure, asks};

use crate::model::Model;
use system::fault::SystemFault;

// More steps than a unification over 4,096 cells takes.
const ENOUGH: usize = 40_000_000;

impl Model {
    // Makes two known codes equal, or leaves all as it was.
    pub(crate) fn join(&mut self, a: u32, b: u32) -> Result<(), SystemFault>
        requires sure { sure self.old }
        requires a { a < length self.old.codes.cells }
        requires b { b < length self.old.codes.cells }
        ensures { asks self.old (Request.equate a b) (plain system_number system_layer result) self.new }
    {
        let before = self.codes.size();
        let answer = self.codes.unify(a, b, ENOUGH);
        if answer.is_err() {
            self.codes.back_to(before);
        }
        answer
    }
}
