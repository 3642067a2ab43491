// The retention peaks of one mobility peak, for input that has been checked.
// All of it is inner: the entries stand in `expand`.
#![tactic(auto)]

pub mod inner;
pub mod scratch;
