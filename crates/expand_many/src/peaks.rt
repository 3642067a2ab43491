// Lists of mobility peaks that are expanded.
use row_record::PeakId;

// The words of the records, the weights of all peaks joined, how many weights each has, and the identity of the first retention peak.
#[derive(Clone, Copy)]
pub struct PeakList<'a> {
    pub list: &'a [u32],
    pub weights: &'a [f32],
    pub lengths: &'a [u32],
    pub first: PeakId,
}
