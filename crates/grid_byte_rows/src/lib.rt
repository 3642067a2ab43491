// Detection over the rows of a grid in bytes that the caller has checked.
#![tactic(auto)]

pub mod call;
pub mod records;
pub mod rows;
