use crate::name::Variable;
use std::alloc::Global;

// What is written so far, the codes that have a name, and whether the next token stands without a space.
#[derive(Drop)]
pub struct Speller {
    pub(crate) heap: Global,
    pub(crate) text: String,
    pub(crate) names: Vec<Variable>,
    pub(crate) tight: bool,
}
