// The element at a rank, for noise and time steps.
#![tactic(auto)]

pub mod inner;
