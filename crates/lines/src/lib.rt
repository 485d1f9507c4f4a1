// The lines of the program: what each says, by its words.
#![tactic(auto)]

pub mod ask;
pub mod line;
pub mod lines;
pub mod parse;
pub mod reading;
mod verb;
pub mod word;
