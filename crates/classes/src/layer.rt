ghost use Rattle.std.specs.Prelude.{◌≤◌, vec_len, vec_capacity};

use crate::table::Table;
use system::system::System;

// How many marks of the layer can be open.
pub(crate) const MOST_MARKS: usize = 7;

// Four classes over a system without. A mark of the layer is one of the system below; the table at its making is kept beside it.
#[derive(Drop)]
pub struct Layer<S: System> {
    pub(crate) below: S,
    pub(crate) table: Table,
    pub(crate) saved: Vec<Table>,
    ghost few: { vec_len saved ≤ 7 },
    ghost room: { 7 ≤ vec_capacity saved },
}
