// The reader: the bytes of a script to its form, or to the first fault from the left.
#![tactic(auto)]

mod due;
pub mod fault;
mod forms;
mod guard;
mod leaf;
mod lookup;
pub mod nesting;
pub mod node;
mod part;
pub mod reader;
mod scope;
mod script;
mod seen;
pub mod source;
mod token;
