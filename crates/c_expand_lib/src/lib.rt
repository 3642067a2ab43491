// The C entries of expansion, the second call, which the archive libc_expand.a exports under the names of include/rubzolena.h. Each
// calls the function of c_expand of the same name and states its clauses again.
#![tactic(auto)]

pub mod many;
pub mod one;
