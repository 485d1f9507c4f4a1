// The words of a script by themselves: names, labels, head words, numbers; and the sheet of labels.
#![tactic(auto)]

pub mod keyword;
pub mod leaf;
pub mod number;
pub mod sheet;
pub mod spelling;
pub mod split;
