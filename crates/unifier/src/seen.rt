ghost use Rattle.std.specs.Prelude.{ℕ, ◌≤◌, vec_items};
ghost use Rattle.unifier.specs.Marks.{at};

// What the walk for cycles has seen of each cell, by a clock that goes on from walk to walk: so marks are cleared only before it could run out. No mark is later than the clock.
// The marks stand beside the cells and not in them, since the trail writes cells back whole. The walk is no struct of marks and cells: each call would have to say that it keeps both.
#[derive(Drop)]
pub struct Seen {
    pub(crate) marks: Vec<usize>,
    pub(crate) clock: usize,
    ghost past: { (i : ℕ) → at (vec_items marks) i ≤ clock },
}
