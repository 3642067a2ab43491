// The C entries of the retention level, which the archive libc_rt.a exports under the names of include/rubzolena.h: the noise of a
// trace, its peaks, the fallback and the window of expansion. Each calls the function of c_rt of the same name and states its clauses
// again.
#![tactic(auto)]

pub mod search;
pub mod single;
pub mod trace;
pub mod window;
