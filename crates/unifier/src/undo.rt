use super::cell::Cell;

// What a cell was before it was written. The whole cell, so that to undo is to write it back.
#[derive(Clone, Copy)]
pub struct Undo {
    pub at: u16,
    pub was: Cell,
}
