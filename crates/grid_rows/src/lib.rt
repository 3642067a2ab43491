// Detection over the rows of a grid that the caller has checked.
#![tactic(auto)]

pub mod call;
pub mod lent;
pub mod rows;
pub mod sized;
pub mod source;
