ghost use Rattle.std.specs.Prelude.{◌≡◌, ◌≤◌, take as front, drop as after, vec_len, vec_capacity};
ghost use Rattle.unifier.specs.Trails.{rewound, Roomy};

use super::cell::Cell;
use super::store::Store;
use super::undo::Undo;

// Takes back the writes that the trail has beyond its first m entries, the newest first, and the cells beyond the first n.
fn unwind(cells: &mut Vec<Cell>, trail: &mut Vec<Undo>, n: usize, m: usize)
    requires { m ≤ vec_len trail.old }
    ensures cells { cells.new.items ≡ front n (rewound cells.old.items (after m trail.old.items)) }
    ensures trail { trail.new.items ≡ front m trail.old.items }
    ensures cell_room { vec_capacity cells.new ≡ vec_capacity cells.old }
    ensures trail_room { vec_capacity trail.new ≡ vec_capacity trail.old }
{
    while trail.len() > m {
        if let Some(e) = trail.pop() {
            let at = e.at as usize;
            if at < cells.len() {
                cells[at] = e.was;
            }
        }
    }
    cells.truncate(n);
}

impl Store {
    // Back to where there were n cells and m entries.
    pub(crate) fn back_to(&mut self, n: usize, m: usize)
        requires within { m ≤ vec_len self.old.trail }
        requires roomy { Roomy (front n (rewound self.old.cells.items (after m self.old.trail.items))) (front m self.old.trail.items) }
        ensures cells { self.new.cells.items ≡ front n (rewound self.old.cells.items (after m self.old.trail.items)) }
        ensures trail { self.new.trail.items ≡ front m self.old.trail.items }
        ensures limit { self.new.limit ≡ self.old.limit }
    {
        unwind(&mut self.cells, &mut self.trail, n, m);
    }
}
