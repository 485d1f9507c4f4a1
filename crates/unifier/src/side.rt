// What a row shows: its fields by label, and the tail below them.
#[derive(Clone, Copy)]
pub struct Side {
    pub root: usize,
    pub fields: [Option<u16>; 24],
    pub tail: usize,
}
