// The listed apexes of a retention trace.
// All of it is inner: the entries that check their input stand in the crates above.
#![tactic(auto)]

pub mod inner;
