// Whether the peaks of a list have different identities.
#![tactic(auto)]

pub mod inner;
