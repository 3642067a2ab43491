// Sums over the points of a checked index, for one window after another.
#![tactic(auto)]

pub mod inner;
