// What expansion does before its search and beside it: the trace over a peak's window, the way that the peak takes, and the fallback.
// All of it is inner: the entries that check their input stand in the crates above.
#![tactic(auto)]

pub mod inner;
