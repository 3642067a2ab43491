// The order, the choice and the shares of a retention trace's apexes, by their places in the list of what was found.
// All of it is inner: the entries that check their input stand in the crates above.
#![tactic(auto)]

pub mod inner;
