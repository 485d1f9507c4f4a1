// The last-in, first-out store, over a slice that its user lends: one text for every kind of entry.
#![tactic(auto)]

pub mod store;
