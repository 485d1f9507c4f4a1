// Four classes over any constraint system that has none: num, ord, eq and steady. What is demanded of open codes stands in a table of entries.
#![tactic(auto)]

pub mod as_system;
pub mod asking;
pub mod entry;
pub mod follow;
pub mod joining;
pub mod judge;
pub mod layer;
pub mod making;
pub mod own;
pub mod refollow;
pub mod table;
pub mod trying;
pub mod unbuilt;
pub mod verdict;
