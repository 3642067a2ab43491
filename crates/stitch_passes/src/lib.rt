// Peaks that belong together, stitched to one: two passes over all peaks, of which the second joins what the buckets of the
// first kept apart.
// All of it is inner: the entry that checks its input stands in `stitch`.
#![tactic(auto)]

pub mod inner;

// The lists that are lent to stitching: two for its answer, the stitched records and the owner column, and four of scratch.
#[derive(Drop)]
pub struct Lent<'a> {
    pub out: &'a mut [u32],
    pub owners: &'a mut [u32],
    pub order: &'a mut [u32],
    pub groups: &'a mut [u32],
    pub keys: &'a mut [u32],
    pub merged: &'a mut [u32],
}
