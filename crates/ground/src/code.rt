// What a system knows a value by.
#[derive(Clone, Copy, PartialEq, Eq)]
pub struct Code(pub u32);
