// The frames over which a mobility peak is followed.
#![tactic(auto)]

pub mod inner;

// Frames by their places in the run, the first and the last. tof's `Span` has the same fields for bins: those are `u32`, as its values are,
// and these are asked for as places of lists; nor does this crate stand above tof.
#[derive(Clone, Copy)]
pub struct Frames {
    pub lo: usize,
    pub hi: usize,
}
