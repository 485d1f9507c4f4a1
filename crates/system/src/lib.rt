// What the typing of a script is coupled to: a constraint system, with what it answers and refuses.
#![tactic(auto)]

pub mod fault;
pub mod laws;
pub mod layer_fault;
pub mod mark;
pub mod system;
pub mod tally;
pub mod unspent;
pub mod view;
