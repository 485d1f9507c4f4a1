ghost use Rattle.std.specs.Prelude.{◌≤◌, vec_len, vec_capacity};

use crate::node::Node;

// How many forms a script may have.
pub(crate) const MOST_FORMS: usize = 512;

// Reads scripts, and keeps the nodes of the last one that it accepted, each form before its sub-forms. There are at most 512, and room
// for all of them is taken when the reader is made.
#[derive(Drop)]
pub struct Reader {
    pub(crate) nodes: Vec<Node>,
    ghost room: { 512 ≤ vec_capacity nodes },
    ghost few: { vec_len nodes ≤ 512 },
}
