ghost use Rattle.std.specs.Prelude.{◌<◌, length};
ghost use Rattle.cells.specs.Cells.{Formed, Leads, Root, what_at};

use super::cell::{Cell, What};

// The root that the links from c lead to. Ranks rise along links, so it comes to an end.
pub(crate) fn find(cells: &[Cell], c: usize) -> usize
    requires formed { Formed cells.now }
    requires known { c < length cells.now }
    ensures known { result < length cells.now }
    ensures leads { Leads cells.now c result }
    ensures root { Root (what_at cells.now result) }
{
    let mut i = c;
    while let What::Link(p) = cells[i].what {
        i = p as usize;
    }
    i
}
