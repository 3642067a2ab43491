// Sums by scan over the points of a checked index.
#![tactic(auto)]

pub mod inner;
