// The cells of the solver, which refer to each other by sixteen bits.
pub type What = cells::What<u16>;

pub type Cell = cells::Cell<u16>;

pub type Pair = cells::Pair<u16>;
