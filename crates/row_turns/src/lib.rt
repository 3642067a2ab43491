// Where a row turns: its valleys and its candidates.
#![tactic(auto)]

pub mod inner;
