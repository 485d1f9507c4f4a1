ghost use Rattle.std.specs.Prelude.{◌≡◌, length};
ghost use Rattle.model.specs.Models.{means, sure, asks, ranks};
ghost use Rattle.model.specs.Meanings;
ghost use Rattle.model.specs.Meanings.{looks, known_below, heights_most};

use crate::cell::{Cell, Saved};
use crate::model::Model;
use ground::classes::Classes;
use ground::code::Code;
use ground::head::Head;
use ground::sort::{Labels, Sort};
use system::fault::SystemFault;
use system::mark::Mark;
use system::system::System;
use system::tally::Tally;
use system::unspent::Unspent;
use system::view::View;

impl System for Model {
    const HEADS: u8 = 5;

    const CLASSES: u8 = 0;

    type Fault = SystemFault;

    type Mark = Mark<Saved>;

    ghost HEADS = { 5 };

    ghost CLASSES = { 0 };

    ghost depth = { λ m. m.depth };

    ghost ok = { λ s. sure s };

    ghost meaning = { λ s. means s };

    ghost asked = { λ s q r t. asks s q r t };

    ghost rank = { λ s c. ranks s c };

    ghost told = { λ s t q r k. k.0 };

    ghost fine = { λ s t q r k. k.1 };

    ghost sound = { λ s k. Meanings.sound s.codes.limit s.codes.cells s.codes.binds s.saved.items k };

    ghost looked = { λ s c k i. looks s.codes.limit s.codes.cells s.codes.binds s.saved.items k c (known_below (length s.codes.cells) c i.0 i.1).0 };

    ghost shallow = { λ s c k. heights_most s.codes.limit s.codes.cells s.codes.binds s.saved.items k c };

    fn fresh(&mut self, sort: Sort) -> Result<Code, SystemFault> {
        match sort {
            Sort::Type => self.codes.add(Cell::Open),
            Sort::Field | Sort::Row(_) => Err(SystemFault::Unknown),
        }
    }

    fn build(
        &mut self,
        head: Head,
        first: Code,
        second: Code,
        _label: u8,
        _lacked: Labels,
    ) -> Result<Code, SystemFault> {
        let (first, second) = (first.0, second.0);
        if self.codes.apt(head, first, second) {
            self.codes.add(Cell::Built {
                head,
                first,
                second,
            })
        } else {
            Err(SystemFault::Unknown)
        }
    }

    fn equate(&mut self, a: Code, b: Code) -> Result<(), SystemFault> {
        if self.codes.knows(a.0) && self.codes.knows(b.0) {
            self.join(a.0, b.0)
        } else {
            Err(SystemFault::Unknown)
        }
    }

    fn demand(&mut self, class: u8, code: Code) -> Result<(), SystemFault> {
        if class > 3 || !self.codes.knows(code.0) {
            return Err(SystemFault::Unknown);
        }
        Err(SystemFault::NoClasses)
    }

    fn look(&self, code: Code) -> Result<View, SystemFault> {
        if !self.codes.knows(code.0) {
            return Err(SystemFault::Unknown);
        }
        let end = self.codes.root(code.0, self.codes.limit() + 1);
        match self.codes.view(end) {
            Cell::Open => Ok(View::Open(Code(end), Classes::NONE)),
            Cell::Link(_) => unreachable(),
            // A child that the head does not take may be any number.
            Cell::Built {
                head,
                first,
                second,
            } => Ok(View::Built {
                head,
                first: Code(first.min(4096)),
                second: Code(second.min(4096)),
                label: 0,
            }),
        }
    }

    fn tally(&self) -> Tally {
        Tally {
            calls: self.codes.size().cells as u32,
            capacity: self.codes.limit() as u32,
            marks: self.saved.len() as u8,
        }
    }

    #[tactic(auto, using(crate::proofs::Following::marks_full))]
    fn mark(&mut self) -> Result<Mark<Saved>, SystemFault> {
        Mark::open(&mut self.saved, self.codes.size())
    }

    fn keep(&mut self, mark: Mark<Saved>) -> Result<(), Unspent<Mark<Saved>, SystemFault>> {
        let _ = mark.close(&mut self.saved)?;
        Ok(())
    }

    fn back(&mut self, mark: Mark<Saved>) -> Result<(), Unspent<Mark<Saved>, SystemFault>> {
        let size = mark.close(&mut self.saved)?;
        self.codes.back_to(size);
        Ok(())
    }
}
