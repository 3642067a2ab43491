// Retention traces of mobility peaks: the readings of a window of an index, summed by frame, over all frames.
#![tactic(auto)]

pub mod inner;

ghost use Rattle.frames_traces.specs.Traces.{RowAnswered, BoundsAnswered};

use frames_index::FrameIndex;
use frames_windows::inner::{Bounds, PaddedRow};
use refusal::Refusal;
use tof_scale::{CheckedScale, TofScale};

// Puts a sum for each frame to the front of `out`, of the readings with scans from scan_lo to scan_hi and with bins around a TOF row, as
// far as the pad, and answers how many they are. Or refuses and leaves `out` as it is.
pub fn rt_trace_for_im_peak(
    ix: &FrameIndex,
    r: PaddedRow,
    out: &mut [f32],
) -> Result<usize, Refusal>
    ensures { RowAnswered ix.now r out.old out.new result }
{
    let ix = inner::check_row(limits::MAX_READING, ix, r, out.len())?;
    let w = frames_windows::inner::row_window(r);
    Ok(inner::put_trace(&ix, w, out))
}

// The same for the bins of TOF bounds, which may come in either order, and as many as the pad on either side.
pub fn rt_trace_for_im_peak_by_bounds(
    ix: &FrameIndex,
    scale: TofScale,
    b: Bounds,
    out: &mut [f32],
) -> Result<usize, Refusal>
    ensures { BoundsAnswered ix.now scale b out.old out.new result }
{
    let ix = inner::check_bounds(limits::MAX_READING, ix, scale, b, out.len())?;
    let w = frames_windows::inner::bounds_window(CheckedScale::of(scale), b);
    Ok(inner::put_trace(&ix, w, out))
}
