ghost use Rattle.std.specs.Prelude.{◌≡◌};
ghost use Rattle.model.specs.Cells.{lookup, view as shown, root as end, occurs as within};

use crate::cell::{Bind, Cell};
use crate::codes::Codes;

impl Codes {
    // The bind of a code that was bound.
    fn bind_of(&self, code: u32) -> Option<Bind>
        ensures { result ≡ lookup self.now.binds code }
    {
        self.binds.iter().find(|bind| bind.from == code).copied()
    }

    // The code as it stands; open where there is none.
    pub(crate) fn view(&self, code: u32) -> Cell
        ensures { result ≡ shown self.now.cells self.now.binds code }
    {
        match self.cells.get(code as usize).copied().unwrap_or(Cell::Open) {
            Cell::Open => match self.bind_of(code) {
                Some(bind) => Cell::Link(bind.to),
                None => Cell::Open,
            },
            cell => cell,
        }
    }

    // The code at the end of the links from this one.
    pub(crate) fn root(&self, code: u32, fuel: usize) -> u32
        ensures { result ≡ end (shown self.now.cells self.now.binds) fuel code }
    {
        if fuel == 0 {
            return code;
        }
        match self.view(code) {
            Cell::Link(to) => self.root(to, fuel - 1),
            _ => code,
        }
    }

    // Is `part` this code, or reached from it by links and children?
    pub(crate) fn occurs(&self, part: u32, code: u32, fuel: usize) -> bool
        ensures { result ≡ within (shown self.now.cells self.now.binds) fuel part code }
    {
        if fuel == 0 {
            return false;
        }
        if part == code {
            return true;
        }
        match self.view(code) {
            Cell::Open => false,
            Cell::Link(to) => self.occurs(part, to, fuel - 1),
            Cell::Built {
                head,
                first,
                second,
            } => {
                head.has_first() && self.occurs(part, first, fuel - 1)
                    || head.has_second() && self.occurs(part, second, fuel - 1)
            }
        }
    }
}
