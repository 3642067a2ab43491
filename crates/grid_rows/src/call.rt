// What detection over a grid of rows is handed.
use row_params::{FrameBounds, ImDetectParams};
use row_record::PeakId;
use tof_scale::TofScale;

// What a grid has besides its lists: the count of columns, the scale with a bin for each row, the frames that were summed, parameters and
// the first identity.
#[derive(Clone, Copy)]
pub struct Terms {
    pub cols: usize,
    pub scale: TofScale,
    pub bounds: FrameBounds,
    pub params: ImDetectParams,
    pub first: PeakId,
}

// The readings row after row, raw ones or none and smoothed ones, the scan of each column, and the mobility of each column or none. Raw and
// smoothed readings stay two lists, of which `row_part` takes one: so document 01 has it.
#[derive(Clone, Copy)]
pub struct GridCall<'a> {
    pub raw: &'a [f32],
    pub smooth: &'a [f32],
    pub scans: &'a [u32],
    pub mobility: &'a [f32],
    pub terms: Terms,
}
