// What rows and retention traces share: candidates, prominence, half height and crossings.
// All of it is inner: the entries that check their input stand in the crates above.
#![tactic(auto)]

pub mod inner;
