// A value would be a part of itself.
#[derive(Clone, Copy, PartialEq, Eq, Debug)]
pub struct Cycle;
