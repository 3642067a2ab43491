// The lines of a row's peaks.
#![tactic(auto)]

pub mod inner;
