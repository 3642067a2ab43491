// The merge of a group of mobility peaks into one.
// All of it is inner: the entries that check their input stand in the crates above.
#![tactic(auto)]

pub mod inner;
