ghost use Rattle.std.specs.Prelude.{◌≡◌};
ghost use Rattle.std.specs.Result.{IsErr};
ghost use Rattle.system.specs.Faults.{system_number, system_layer};
ghost use Rattle.system.specs.Replies.{coded, plain};
ghost use Rattle.system.specs.Requests.{Request};
ghost use Rattle.unifier.specs.Laws.{solver_sound, solver_looks, solver_shallow};
ghost use Rattle.unifier.specs.Solvers.{means, sure, asks, ranks, Spent, Took};

use super::cell::What;
use super::find::find;
use super::plan::Plan;
use super::saved::Saved;
use super::solver::Solver;
use super::sorts::{are_alike, knows_sort};
use super::view::view_of;
use ground::code::Code;
use ground::head::Head;
use ground::sort::{Labels, Sort};
use system::fault::SystemFault;
use system::mark::Mark;
use system::system::System;
use system::tally::Tally;
use system::unspent::Unspent;
use system::view::View;

impl<const HEADS: u8> System for Solver<HEADS> {
    const HEADS: u8 = HEADS;

    const CLASSES: u8 = 0;

    type Fault = SystemFault;

    type Mark = Mark<Saved>;

    ghost HEADS = { HEADS };

    ghost CLASSES = { 0 };

    ghost depth = { λ m. m.depth };

    ghost ok = { λ s. sure HEADS s };

    ghost meaning = { λ s. means HEADS s };

    ghost asked = { λ s q r t. asks HEADS s q r t };

    ghost rank = { λ s c. ranks HEADS s c };

    ghost told = { λ s t q r k. k.0 };

    ghost fine = { λ s t q r k. k.1 };

    ghost sound = { λ s k. solver_sound HEADS s k };

    ghost looked = { λ s c k i. solver_looks HEADS s c k i };

    ghost shallow = { λ s c k. solver_shallow HEADS s c k };

    // One cell goes; refused with 16 exactly where none is left.
    fn fresh(&mut self, sort: Sort) -> Result<Code, SystemFault>
        requires { sure HEADS self.old }
        ensures answered { asks HEADS self.old (Request.fresh sort) (coded system_number system_layer result) self.new }
        ensures spent { Spent HEADS self.old result self.new }
    {
        if !knows_sort(HEADS, sort) {
            return Err(SystemFault::Unknown);
        }
        self.grow(What::Open, sort)
    }

    // One cell goes; refused with 16 exactly where none is left.
    fn build(
        &mut self,
        head: Head,
        first: Code,
        second: Code,
        label: u8,
        lacked: Labels,
    ) -> Result<Code, SystemFault>
        requires { sure HEADS self.old }
        ensures answered { asks HEADS self.old (Request.build head first.0 second.0 label lacked) (coded system_number system_layer result) self.new }
        ensures spent { Spent HEADS self.old result self.new }
    {
        let plan = Plan {
            head,
            first: first.0 as usize,
            second: second.0 as usize,
            label,
            lacked,
        };
        if head.number() >= HEADS || !plan.suits(self.store.cells.as_slice()) {
            return Err(SystemFault::Unknown);
        }
        self.grow(plan.contents(), plan.sort())
    }

    // Two cells go for each extension of a row; a refusal changes nothing.
    fn equate(&mut self, a: Code, b: Code) -> Result<(), SystemFault>
        requires { sure HEADS self.old }
        ensures answered { asks HEADS self.old (Request.equate a.0 b.0) (plain system_number system_layer result) self.new }
        ensures took { Took HEADS self.old a.0 b.0 result self.new.store.cells.items }
    {
        let x = a.0 as usize;
        let y = b.0 as usize;
        if !are_alike(self.store.cells.as_slice(), x, y) {
            return Err(SystemFault::Unknown);
        }
        self.store
            .equate(&mut self.seen, self.pairs.as_mut_slice(), x, y)
    }

    // There are no classes, so it is refused and changes nothing.
    fn demand(&mut self, class: u8, code: Code) -> Result<(), SystemFault>
        requires { sure HEADS self.old }
        ensures answered { asks HEADS self.old (Request.demand class code.0) (plain system_number system_layer result) self.new }
        ensures refused { IsErr result }
        ensures same { self.new ≡ self.old }
    {
        Err(self.refuse_demand(class, code))
    }

    fn look(&self, code: Code) -> Result<View, SystemFault> {
        let c = code.0 as usize;
        if c == 0 || c >= self.store.cells.len() {
            return Err(SystemFault::Unknown);
        }
        let root = find(self.store.cells.as_slice(), c);
        Ok(view_of(root, self.store.cells[root].what))
    }

    fn tally(&self) -> Tally {
        Tally {
            calls: self.calls as u32,
            capacity: (self.store.limit - 1) as u32,
            marks: self.saved.len() as u8,
        }
    }

    // A body that counts the open marks itself is judged by these lemmas.
    #[tactic(auto, using(crate::proofs::Marking::marks_told, system::proofs::Same::marks_same))]
    fn mark(&mut self) -> Result<Mark<Saved>, SystemFault> {
        let now = Saved {
            cells: self.store.cells.len(),
            trail: self.store.trail.len(),
            calls: self.calls,
        };
        Mark::open(&mut self.saved, now)
    }

    fn keep(&mut self, mark: Mark<Saved>) -> Result<(), Unspent<Mark<Saved>, SystemFault>> {
        mark.close(&mut self.saved)?;
        Ok(())
    }

    fn back(&mut self, mark: Mark<Saved>) -> Result<(), Unspent<Mark<Saved>, SystemFault>> {
        let saved = mark.close(&mut self.saved)?;
        self.store.back_to(saved.cells, saved.trail);
        self.calls = saved.calls;
        Ok(())
    }
}
