// Expansion, the second call, as C functions on numbers and lists.
#![tactic(auto)]

pub mod many;
pub mod one;
