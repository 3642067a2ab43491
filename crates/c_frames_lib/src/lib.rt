// The C entries of the frame index, marginals and retention traces, which the archive libc_frames.a exports under the names of
// include/rubzolena.h. Each calls the function of c_frames of the same name and states its clauses again.
#![tactic(auto)]

pub mod blocks;
pub mod lists;
pub mod peaks;
pub mod view;
