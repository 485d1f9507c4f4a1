// What a mark keeps: how many cells, entries of the trail, and calls there were.
#[derive(Clone, Copy)]
pub struct Saved {
    pub(crate) cells: usize,
    pub(crate) trail: usize,
    pub(crate) calls: usize,
}
