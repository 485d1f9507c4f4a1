ghost use Rattle.std.specs.Prelude.{◌≡◌};
ghost use Rattle.model.specs.Cells.{unify as unified, bind as bound, children as below, answer, rebound};

use crate::cell::{Bind, Cell};
use crate::codes::Codes;
use ground::head::Head;
use system::fault::SystemFault;

impl Codes {
    // Binds the open code `from` to `to`, unless it occurs there.
    fn bind(&mut self, from: u32, to: u32) -> Result<(), SystemFault>
        ensures answer { result ≡ answer (bound self.old.cells self.old.limit from to self.old.binds) }
        ensures codes { self.new ≡ rebound self.old (bound self.old.cells self.old.limit from to self.old.binds) }
    {
        if self.occurs(from, to, self.limit + 1) {
            return Err(SystemFault::Cyclic);
        }
        if self.binds.len() >= self.limit {
            return Err(SystemFault::NoCells);
        }
        self.binds.push_reserved(Bind { from, to });
        Ok(())
    }

    // Makes two codes equal, by binding open codes; a walk of more than `fuel` steps is given up.
    #[cycle(children_unify)]
    pub(crate) fn unify(&mut self, a: u32, b: u32, fuel: usize) -> Result<(), SystemFault>
        ensures answer { result ≡ answer (unified self.old.cells self.old.limit fuel a b self.old.binds) }
        ensures codes { self.new ≡ rebound self.old (unified self.old.cells self.old.limit fuel a b self.old.binds) }
    {
        if fuel == 0 {
            return Err(SystemFault::Cyclic);
        }
        if a == b {
            return Ok(());
        }
        let s = self.view(a);
        let t = self.view(b);
        if let Cell::Link(p) = s {
            return self.unify(p, b, fuel - 1);
        }
        if let Cell::Link(q) = t {
            return self.unify(a, q, fuel - 1);
        }
        let Cell::Built {
            head,
            first: x,
            second: y,
        } = s
        else {
            return self.bind(a, b);
        };
        let Cell::Built {
            head: other,
            first: p,
            second: q,
        } = t
        else {
            return self.bind(b, a);
        };
        if head != other {
            return Err(SystemFault::Clash);
        }
        self.children(head, (x, y), (p, q), fuel - 1)
    }

    // Makes the children of two codes with one head equal.
    #[cycle(children_unify)]
    fn children(
        &mut self,
        head: Head,
        one: (u32, u32),
        other: (u32, u32),
        fuel: usize,
    ) -> Result<(), SystemFault>
        ensures answer { result ≡ answer (below (unified self.old.cells self.old.limit fuel) head one.0 one.1 other.0 other.1 self.old.binds) }
        ensures codes { self.new ≡ rebound self.old (below (unified self.old.cells self.old.limit fuel) head one.0 one.1 other.0 other.1 self.old.binds) }
    {
        if head.has_first() {
            self.unify(one.0, other.0, fuel)?;
        }
        if head.has_second() {
            self.unify(one.1, other.1, fuel)?;
        }
        Ok(())
    }
}
