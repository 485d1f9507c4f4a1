use ground::head::Head;

// A code: open, equal to another code, or a head over earlier codes. It is made open or with a head; a bind makes an open one equal to another.
#[derive(Clone, Copy)]
pub enum Cell {
    Open,
    Link(u32),
    Built { head: Head, first: u32, second: u32 },
}

// An open code that was made equal to another code.
#[derive(Clone, Copy)]
pub struct Bind {
    pub from: u32,
    pub to: u32,
}

// How many cells and binds there were when a mark was made.
#[derive(Clone, Copy)]
pub struct Saved {
    pub(crate) cells: usize,
    pub(crate) binds: usize,
}
