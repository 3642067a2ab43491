// The text of the table for bytes that come some at a time.
#![tactic(auto)]

pub mod inner;
