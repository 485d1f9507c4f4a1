// Rows as cells: what they say, as pure lists. A cell refers to others by numbers of the type I.
#![tactic(auto)]

pub mod heads;

use ground::sort::Sort;

// A head over no other cell.
#[derive(Clone, Copy, PartialEq, Eq)]
pub enum Bare {
    Whole,
    Tenth,
    Flag,
    Absent,
    Empty,
}

// A head over one.
#[derive(Clone, Copy, PartialEq, Eq)]
pub enum Wrap {
    List,
    Record,
    Has,
}

#[derive(Clone, Copy)]
pub enum What<I> {
    Open,
    Link(I),
    Leaf(Bare),
    One(Wrap, I),
    Two(I, I),
    Row(u8, I, I),
}

#[derive(Clone, Copy)]
pub struct Cell<I> {
    pub what: What<I>,
    pub rank: I,
    pub sort: Sort,
}

#[derive(Clone, Copy)]
pub struct Pair<I> {
    pub left: I,
    pub right: I,
}
