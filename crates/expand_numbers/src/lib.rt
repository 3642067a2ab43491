// The numbers of expansion, for one mobility peak and for many.
// All of it is inner: the entries stand in `expand`.
#![tactic(auto)]

pub mod inner;
