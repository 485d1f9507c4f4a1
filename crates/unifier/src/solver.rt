ghost use Rattle.std.specs.Prelude.{◌≡◌, ◌+◌, ◌≤◌, length, vec_items, vec_len, vec_capacity};

use super::cell::Pair;
use super::saved::Saved;
use super::seen::Seen;
use super::store::Store;

// A constraint system without classes that knows the first HEADS heads, five or ten. All memory is taken when it is built: the store, a stamp for each cell
// and slots for the pairs.
// What is `sure` between calls is no ghost field: it has an order of the cells in it, and the fact of a ghost field has but one proof.
#[derive(Drop)]
pub struct Solver<const HEADS: u8> {
    pub(crate) store: Store,
    pub(crate) seen: Seen,
    pub(crate) pairs: Vec<Pair>,
    pub(crate) saved: Vec<Saved>,
    pub(crate) calls: usize,
    ghost few: { vec_len saved ≤ 8 },
    ghost saved_room: { 8 ≤ vec_capacity saved },
    ghost stamped: { length (vec_items seen.marks) ≡ store.limit },
    ghost paired: { store.limit + 2 ≤ length (vec_items pairs) },
}

// Trees know the heads that need no rows; rows know all ten.
pub type Trees = Solver<5>;

pub type Rows = Solver<10>;
