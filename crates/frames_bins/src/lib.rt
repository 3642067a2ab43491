// The points of a frame sorted by bin: the distinct bins, where the points of each start, their scans and readings.
#![tactic(auto)]

pub mod inner;
pub mod lists;
