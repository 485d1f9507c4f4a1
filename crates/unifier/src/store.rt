ghost use Rattle.std.specs.Prelude.{◌*◌, ◌≤◌, vec_items, vec_len, vec_capacity};
ghost use Rattle.unifier.specs.Trails.{Roomy};

use super::cell::Cell;
use super::undo::Undo;

// All memory is taken when it is built: `limit` cells, and three entries of the trail for each of them. So cells refer to each other by numbers: a Box would take memory in a call.
// That the cells are `Fine` is no invariant: they are not between the writes of a link, and each writer would have to ask for what a turn knows as a whole.
#[derive(Drop)]
pub struct Store {
    pub(crate) cells: Vec<Cell>,
    pub(crate) trail: Vec<Undo>,
    pub(crate) limit: usize,
    ghost small: { limit ≤ 4097 },
    ghost room: { limit ≤ vec_capacity cells },
    ghost within: { vec_len cells ≤ limit },
    ghost spare: { 3 * limit ≤ vec_capacity trail },
    ghost roomy: { Roomy (vec_items cells) (vec_items trail) },
}
