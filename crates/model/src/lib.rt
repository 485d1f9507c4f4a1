// A small constraint system, for tests and examples: five heads and no classes, correct but slow.
#![tactic(auto)]

pub mod as_system;
pub mod cell;
pub mod codes;
pub mod joining;
pub mod layer;
pub mod making;
pub mod model;
pub mod unify;
pub mod walk;
