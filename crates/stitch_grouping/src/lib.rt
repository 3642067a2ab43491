// One pass of stitching over sorted peaks: they are cut into groups, and each group is merged.
// All of it is inner: the entries that check their input stand in the crates above.
#![tactic(auto)]

pub mod inner;
