ghost use Rattle.std.specs.Prelude.{◌≡◌, ◌<◌, true};
ghost use Rattle.ground.specs.Heads.{gives, has_first, has_second};
ghost use Rattle.system.specs.Requests.{takes, labelled};
ghost use Rattle.unifier.specs.States.{state_of};
ghost use Rattle.unifier.specs.Views.{contents};

use super::cell::{Cell, What};
use super::sorts::{holds_label, is_code_of, is_small};
use cells::{Bare, Wrap};
use ground::head::Head;
use ground::sort::{Labels, Sort};

// What is to be built: a head, and the children, the label and the set of which it takes some.
#[derive(Clone, Copy)]
pub(crate) struct Plan {
    pub head: Head,
    pub first: usize,
    pub second: usize,
    pub label: u8,
    pub lacked: Labels,
}

impl Plan {
    // Whether the children, the label and the set are such as the head takes.
    pub(crate) fn suits(self, cells: &[Cell]) -> bool
        ensures { result ≡ takes (state_of 0 cells.now) self.head self.first self.second self.label self.lacked }
    {
        match self.head {
            Head::Whole | Head::Tenth | Head::Flag | Head::Absent => true,
            Head::To => {
                is_code_of(cells, self.first, Sort::Type)
                    && is_code_of(cells, self.second, Sort::Type)
            }
            Head::List | Head::Has => is_code_of(cells, self.first, Sort::Type),
            Head::Record => is_code_of(cells, self.first, Sort::Row(Labels(0))),
            Head::Empty => is_small(self.lacked),
            Head::Row => {
                is_small(self.lacked)
                    && holds_label(self.lacked, self.label)
                    && is_code_of(cells, self.first, Sort::Field)
                    && is_code_of(cells, self.second, Sort::Row(self.lacked))
            }
        }
    }

    // What a cell of it holds. The children that it has are numbers of cells.
    pub(crate) fn contents(self) -> What
        requires first { has_first self.head ≡ true → self.first < 65536 }
        requires second { has_second self.head ≡ true → self.second < 65536 }
        ensures { result ≡ contents self.head self.first self.second self.label }
    {
        match self.head {
            Head::Whole => What::Leaf(Bare::Whole),
            Head::Tenth => What::Leaf(Bare::Tenth),
            Head::Flag => What::Leaf(Bare::Flag),
            Head::To => What::Two(self.first as u16, self.second as u16),
            Head::List => What::One(Wrap::List, self.first as u16),
            Head::Record => What::One(Wrap::Record, self.first as u16),
            Head::Absent => What::Leaf(Bare::Absent),
            Head::Has => What::One(Wrap::Has, self.first as u16),
            Head::Empty => What::Leaf(Bare::Empty),
            Head::Row => What::Row(self.label, self.first as u16, self.second as u16),
        }
    }

    // The sort that the head gives, with a set and a label that it takes.
    pub(crate) fn sort(self) -> Sort
        requires { labelled self.head self.label self.lacked ≡ true }
        ensures { result ≡ gives self.head self.lacked self.label }
    {
        match self.head {
            Head::Whole | Head::Tenth | Head::Flag | Head::To | Head::List | Head::Record => {
                Sort::Type
            }
            Head::Absent | Head::Has => Sort::Field,
            Head::Empty => Sort::Row(self.lacked),
            Head::Row => Sort::Row(Labels(self.lacked.0.saturating_sub(1 << self.label))),
        }
    }
}
