// The retention level as C functions on numbers and lists: the noise of a trace, the fallback, and expansion.
#![tactic(auto)]

pub mod search;
pub mod single;
pub mod trace;
pub mod window;
