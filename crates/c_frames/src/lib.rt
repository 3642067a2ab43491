// The frame index, marginals and retention traces as C functions on numbers and lists.
#![tactic(auto)]

pub mod blocks;
pub mod lists;
pub mod peaks;
pub mod view;
