// The calls of a bare constraint system, a line each: what the system is asked, and what is answered.
#![tactic(auto)]

pub mod answer;
pub mod book;
pub mod hear;
pub mod out;
pub mod reason;
pub mod say;
pub mod serve;
mod session;
pub mod show;
