// The retention peaks of one mobility peak over a run that has been checked.
// All of it is inner: the entries stand in `expand`.
#![tactic(auto)]

pub mod inner;
pub mod run;
pub mod scratch;
