use super::cell::Pair;
use stack::store::Stack;

// The pairs that wait for their turn. Those of fields wait apart and go first, so those of two rows at most wait at once.
#[derive(Drop)]
pub struct Waiting<'a> {
    pub(crate) fields: Stack<'a, Pair>,
    pub(crate) pending: Stack<'a, Pair>,
}
