// What a line of the input says.
use crate::ask::Ask;

// Which constraint system is chosen.
#[derive(Clone, Copy)]
pub struct Pile {
    pub records: bool,
    pub classes: bool,
}

// A call of a bare system, or the choice of one.
#[derive(Clone, Copy)]
pub enum Call {
    Ask(Ask),
    Look(u32),
    Tally,
    Mark,
    Keep,
    Back,
    Pile(Pile, u32),
}

#[derive(Clone, Copy)]
pub enum Line<'a> {
    Blank,
    Sheet(&'a [u8]),
    Read(&'a [u8]),
    // The numbers of codes, as written.
    Type(&'a [u8]),
    Call(Call),
    Unknown,
}
