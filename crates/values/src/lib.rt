// The value of a code of a constraint system, as far as it is solved, as text.
#![tactic(auto)]

pub mod class;
pub mod kind;
pub mod name;
mod row;
pub mod spell;
pub mod speller;
pub mod token;
pub mod tokens;
pub mod value;
pub mod word;
