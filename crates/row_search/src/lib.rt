// Which apexes of a row are kept, and what is measured of them.
#![tactic(auto)]

pub mod inner;
pub mod scratch;
