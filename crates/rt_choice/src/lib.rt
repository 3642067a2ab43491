// The choice among apexes that lie close in time.
#![tactic(auto)]

pub mod inner;
