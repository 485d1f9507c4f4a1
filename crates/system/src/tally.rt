// How many fresh and build calls stand, how many can, and how many marks are open.
#[derive(Clone, Copy)]
pub struct Tally {
    pub calls: u32,
    pub capacity: u32,
    pub marks: u8,
}
