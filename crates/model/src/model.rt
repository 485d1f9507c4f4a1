ghost use Rattle.std.specs.Prelude.{◌≤◌, vec_len, vec_capacity};

use crate::cell::Saved;
use crate::codes::Codes;

// A constraint system of five heads and no classes. A mark is the numbers of cells and binds.
#[derive(Drop)]
pub struct Model {
    pub(crate) codes: Codes,
    pub(crate) saved: Vec<Saved>,
    ghost few: { vec_len saved ≤ 8 },
    ghost saved_room: { 8 ≤ vec_capacity saved },
}
