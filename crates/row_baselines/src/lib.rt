// The baselines of all candidates of a row, in one sweep.
#![tactic(auto)]

pub mod inner;
