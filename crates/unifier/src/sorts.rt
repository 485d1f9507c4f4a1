ghost use Rattle.std.specs.Prelude.{◌≡◌, ◌&&◌};
ghost use Rattle.system.specs.Meaning.{small, knows_sort};
ghost use Rattle.system.specs.Requests.{is_of, alike, holds};
ghost use Rattle.system.specs.Replies.{kind_of};
ghost use Rattle.unifier.specs.States.{sort_in};

use super::cell::Cell;
use ground::sort::{Labels, Sort};

// Whether the labels are below 24 alone.
pub(crate) fn is_small(lacked: Labels) -> bool
    ensures { result ≡ small lacked }
{
    lacked.0 < 1 << 24
}

// Whether a system of so many heads knows the sort: with five, that of types alone.
pub(crate) fn knows_sort(heads: u8, sort: Sort) -> bool
    ensures { result ≡ knows_sort (kind_of heads 0) sort }
{
    match sort {
        Sort::Type => true,
        Sort::Field => heads >= 10,
        Sort::Row(lacked) => heads >= 10 && is_small(lacked),
    }
}

// Whether the label is below 24 and in the set.
pub(crate) fn holds_label(set: Labels, label: u8) -> bool
    ensures { result ≡ holds set label }
{
    label <= 23 && (set.0 >> label) % 2 == 1
}

// Whether c is a code of that sort.
pub(crate) fn is_code_of(cells: &[Cell], c: usize, sort: Sort) -> bool
    ensures { result ≡ is_of (sort_in cells.now c) sort }
{
    c != 0 && c < cells.len() && cells[c].sort == sort
}

// Whether both are codes, of one sort.
pub(crate) fn are_alike(cells: &[Cell], a: usize, b: usize) -> bool
    ensures { result ≡ alike (sort_in cells.now a) (sort_in cells.now b) }
{
    a != 0 && a < cells.len() && is_code_of(cells, b, cells[a].sort)
}
