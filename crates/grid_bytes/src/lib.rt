// Detection over a grid in bytes that the caller has checked: weights, and local lists of lengths that fit.
#![tactic(auto)]

pub mod sized;
pub mod weighed;
