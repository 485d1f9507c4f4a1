use system::fault::ClassFault;

// What was wanting: a system that is new and has no classes, or memory.
#[derive(Clone, Copy, PartialEq, Eq, Debug)]
pub enum Want {
    NewSystem(ClassFault),
    Memory,
}

// The system over which no layer was built, and what was wanting.
pub struct Unbuilt<S> {
    pub below: S,
    pub want: Want,
}
