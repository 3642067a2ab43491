// Times between the frames of a time axis.
// All of it is inner: the entries that check their input stand in the crates above.
#![tactic(auto)]

pub mod inner;
