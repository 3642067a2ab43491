// Retention peaks of a mobility peak and a trace that the caller has checked. A trace is n frames of the run from `lo` on: a slice of its
// frame numbers would need `lo` beside it all the same, for the places.
ghost use Rattle.std.specs.Prelude.{◌≡◌, ◌≤◌, ◌<◌, ◌+◌, length};
ghost use Rattle.limits.specs.Limits.{exact_index};
ghost use Rattle.row_spans.specs.Span.{sample_at};
ghost use Rattle.expand_placed.specs.Placed.{in_run, bounds_in, placed};

use row_record::{ImPeak1D, PeakId};
use rt_record::{RtApex, RtBounds, RtPeak1D};

// The frame of a trace of n frames at a place without a fraction, which is held to the trace. rounding's `floor_sample` and `ceil_sample`
// with a guess of 0 answer the same of the place itself; with them that the frame is one of the trace, which is said once here, would be
// shown at six places of `bounds_in`.
fn frame_at(n: usize, x: f32) -> u32
    requires { (0 < n) × (n ≤ exact_index) }
    ensures is { result ≡ sample_at n x }
    ensures inside { result < n }
{
    let last = numeric::inner::of_index(n - 1);
    numeric::cast_sat(numeric::clamp(x, 0.0, last))
}

// The frames of the run from `lo` on, n of them, that an apex of their trace reaches over: at its ends or next to them.
#[tactic(auto, unfolding(crate::specs::Placed::bounds_in))]
fn bounds_in(lo: usize, n: usize, ids: &[u32], a: RtApex) -> RtBounds
    requires { (0 < n) × (lo + n ≤ length ids.now) × (length ids.now ≤ exact_index) }
    ensures { result ≡ bounds_in lo n ids.now a }
{
    let l = lo + frame_at(n, rounding::floor(a.left_x)) as usize;
    let r = lo + frame_at(n, rounding::ceil(a.right_x)) as usize;
    RtBounds {
        rt_lo: l as u32,
        rt_hi: r as u32,
        frame_id_lo: ids[l].min(ids[r]),
        frame_id_hi: ids[l].max(ids[r]),
    }
}

// An apex of the trace of the frames from `lo` on, counted in the run.
#[tactic(auto, unfolding(crate::specs::Placed::in_run))]
fn in_run(lo: usize, a: RtApex) -> RtApex
    requires { (lo ≤ exact_index) × (a.rt_idx + lo ≤ exact_index) }
    ensures { result ≡ in_run lo a }
{
    let from = numeric::inner::of_index(lo);
    RtApex {
        rt_idx: lo as u32 + a.rt_idx,
        left_x: a.left_x + from,
        right_x: a.right_x + from,
        ..a
    }
}

// The retention peak of an apex of the trace of n frames from `lo` on.
#[tactic(auto, unfolding(crate::specs::Placed::placed))]
pub fn place_apex(lo: usize, n: usize, ids: &[u32], p: ImPeak1D, a: RtApex, id: PeakId) -> RtPeak1D
    requires { (0 < n) × (lo + n ≤ length ids.now) × (length ids.now ≤ exact_index) × (a.rt_idx < n) }
    ensures { result ≡ placed lo n ids.now p a id }
{
    let b = bounds_in(lo, n, ids, a);
    let at = in_run(lo, a);
    rt_record::inner::rt_peak_of(at, b, p, id)
}
