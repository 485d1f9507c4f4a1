ghost use Rattle.std.specs.Prelude.{◌≡◌, ◌<◌, length};
ghost use Rattle.cells.specs.Cells.{sort_at};
ghost use Rattle.unifier.specs.Fine.{Fine, Rowly};
ghost use Rattle.unifier.specs.Sides.{Tabled};

use super::cell::{Cell, What};
use super::side::Side;

// What the row c shows. Each row on the way lacks a label more than the one before, so no label comes twice.
pub(crate) fn walk(cells: &[Cell], c: usize) -> Side
    requires fine { Fine cells.now }
    requires known { c < length cells.now }
    requires row { Rowly (sort_at cells.now c) }
    ensures root { result.root ≡ c }
    ensures tabled { Tabled cells.now result }
{
    let mut fields = [None; 24];
    let mut i = c;
    loop {
        let cell = cells[i];
        match cell.what {
            What::Link(p) => i = p as usize,
            What::Row(label, field, tail) => {
                fields[label as usize] = Some(field);
                i = tail as usize;
            }
            _ => return Side {
                root: c,
                fields,
                tail: i,
            },
        }
    }
}
