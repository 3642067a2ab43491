// The windows over an index that traces are taken by.
#![tactic(auto)]

pub mod inner;
