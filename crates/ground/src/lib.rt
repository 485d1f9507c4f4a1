// The words of the subject: places in a script, names, codes, sorts, heads and classes; and what holds of ground values.
#![tactic(auto)]

pub mod class;
pub mod classes;
pub mod code;
pub mod environment;
pub mod head;
pub mod laws;
pub mod name;
pub mod place;
pub mod refusal;
pub mod sort;
