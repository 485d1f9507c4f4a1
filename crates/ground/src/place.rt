// Where in a script: the first byte, counted from 0, and how many bytes.
#[derive(Clone, Copy, PartialEq, Eq, Debug)]
pub struct Place {
    pub start: usize,
    pub length: usize,
}
