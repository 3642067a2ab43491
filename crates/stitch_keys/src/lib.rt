// What stitching sorts peaks by: the numbers of a key, as words of a table that has a row a peak.
#![tactic(auto)]

pub mod inner;

use stitch_matching::StitchParams;

// By which key: that of the first pass, with the parameters, that of the second, which looks at none, or the identity alone. An enum and
// not a trait: what is said of passes and orders is said of every rule, and names it.
#[derive(Clone, Copy)]
pub enum KeyRule {
    First(StitchParams),
    Second,
    Identity,
}
