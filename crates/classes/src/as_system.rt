ghost use Rattle.std.specs.Prelude.{ℕ, reverse};
ghost use Rattle.system.specs.Replies.{kind_of};
ghost use Rattle.classes.specs.Layers.{means, sure, Answered};
ghost use Rattle.std.proofs.Common.{subst};
ghost use Rattle.system.specs.Meaning.{Sound};
ghost use Rattle.classes.specs.Sounding.{layered_sound};
ghost use Rattle.classes.specs.Lifting.{looks_lift};

use crate::asking::check_type;
use crate::judge::judge;
use crate::layer::{Layer, MOST_MARKS};
use crate::own::own;
use crate::trying::try_equate;
use ground::class::Class;
use ground::classes::Classes;
use ground::code::Code;
use ground::head::Head;
use ground::sort::{Labels, Sort};
use system::fault::ClassFault;
use system::layer_fault::LayerFault;
use system::system::System;
use system::tally::Tally;
use system::unspent::Unspent;
use system::view::View;

impl<S: System> System for Layer<S> {
    const HEADS: u8 = S::HEADS;

    const CLASSES: u8 = 4;

    type Fault = LayerFault<S::Fault>;

    // A mark of the layer is one of the system below.
    type Mark = S::Mark;

    ghost HEADS = { S.System.HEADS };

    ghost CLASSES = { 4 };

    ghost depth = { S.System.depth };

    ghost ok = { sure S.System.ok S.System.CLASSES S.System.meaning };

    ghost meaning = { means S.System.meaning };

    ghost asked = { Answered S.System.ok S.System.HEADS S.System.CLASSES S.System.meaning };

    ghost rank = { λ s c. S.System.rank s.below c };

    ghost told = { λ s t q r k. k.0 };

    ghost fine = { λ s t q r k. k.1 };

    ghost sound = { λ s k.
        let D = S.System in
        let m = D.meaning s.below in
        layered_sound D.HEADS m s.table (reverse s.saved.items) (subst (λ (z : ℕ). Sound (kind_of D.HEADS z) m) k.classless (D.sound s.below k.below)) k.order };

    ghost looked = { λ s c k i.
        let D = S.System in
        looks_lift D.HEADS (D.meaning s.below) s.table (reverse s.saved.items) (D.rank s.below) c (D.looked s.below c k.below i) };

    ghost shallow = { λ s c k. S.System.shallow s.below c k.below };

    fn fresh(&mut self, sort: Sort) -> Result<Code, LayerFault<S::Fault>> {
        let code = self.below.fresh(sort)?;
        self.refollow();
        Ok(code)
    }

    fn build(
        &mut self,
        head: Head,
        first: Code,
        second: Code,
        label: u8,
        lacked: Labels,
    ) -> Result<Code, LayerFault<S::Fault>> {
        let code = self.below.build(head, first, second, label, lacked)?;
        self.refollow();
        Ok(code)
    }

    fn equate(&mut self, a: Code, b: Code) -> Result<(), LayerFault<S::Fault>> {
        if self.table.is_empty() {
            self.below.equate(a, b)?;
            return Ok(());
        }
        let mark = self.below.mark()?;
        match try_equate(&mut self.below, &self.table, a, b) {
            Ok(table) => {
                self.below.keep(mark).unwrap();
                self.table = table;
                Ok(())
            }
            Err(fault) => {
                self.below.back(mark).unwrap();
                Err(fault)
            }
        }
    }

    fn demand(&mut self, class: u8, code: Code) -> Result<(), LayerFault<S::Fault>> {
        self.below.look(code)?;
        let Ok(class) = Class::try_from(class) else {
            return Err(LayerFault::Own(ClassFault::Unknown));
        };
        check_type(&mut self.below, class, code)?;
        let verdict = judge(&self.below, code);
        own(self.table.take_up(verdict, Classes::only(class)))
    }

    fn look(&self, code: Code) -> Result<View, LayerFault<S::Fault>> {
        match self.below.look(code)? {
            View::Open(open, _) => Ok(View::Open(open, self.table.set_of(open))),
            built => Ok(built),
        }
    }

    fn tally(&self) -> Tally {
        self.below.tally()
    }

    fn mark(&mut self) -> Result<S::Mark, LayerFault<S::Fault>> {
        if self.saved.len() == MOST_MARKS {
            return Err(LayerFault::Own(ClassFault::TooManyMarks));
        }
        let mark = self.below.mark()?;
        self.saved.push_reserved(self.table);
        Ok(mark)
    }

    fn keep(&mut self, mark: S::Mark) -> Result<(), Unspent<S::Mark, LayerFault<S::Fault>>> {
        self.below
            .keep(mark)
            .map_err(|unspent| unspent.map_fault::<LayerFault<S::Fault>>())?;
        self.saved.pop();
        Ok(())
    }

    fn back(&mut self, mark: S::Mark) -> Result<(), Unspent<S::Mark, LayerFault<S::Fault>>> {
        self.below
            .back(mark)
            .map_err(|unspent| unspent.map_fault::<LayerFault<S::Fault>>())?;
        let newest = self.saved.len() - 1;
        self.table = self.saved[newest];
        self.saved.truncate(newest);
        Ok(())
    }
}
