// A row of a grid: smoothed where weights are given, and searched.
#![tactic(auto)]

pub mod inner;
pub mod kernel;
