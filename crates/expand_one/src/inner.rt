// A mobility peak expanded over a run that the caller has checked.
ghost use Rattle.std.specs.Prelude.{◌≡◌, ◌≤◌, ◌<◌, length};
ghost use Rattle.expand_trace.specs.FallbackPeaks.{Put};
ghost use Rattle.expand_peak.specs.Expanded.{peaks_over, expanded};
ghost use Rattle.expand_one.specs.Steps.{Expandable};
ghost use Rattle.expand_one.specs.Runs.{run_in};

use super::run::FollowedRun;
use super::scratch::RunScratch;
use expand_padded_window::Frames;
use expand_peak::inner::WindowTrace;
use expand_trace::inner::Placing;
use row_record::{ImPeak1D, PeakId};
use tof_scale::CheckedScale;

// Writes the retention peaks of a mobility peak over some frames to the front of `out` and answers how many there are. A peak, its weights
// and its first identity come one by one: a struct of the three would be taken apart here at once, since the weights go to the trace, and
// the two others to where its peaks are placed.
fn expand_over(
    run: &FollowedRun<'_>,
    weights: &[f32],
    p: ImPeak1D,
    frames: Frames,
    first: PeakId,
    scratch: &mut RunScratch<'_, '_, '_>,
    out: &mut [u32],
) -> usize
    requires { Expandable (run_in run.now) weights.now p first (length out.old)
        × (length run.now.ids.now ≤ scratch.old.trace.search.samples)
        × (frames.lo ≤ frames.hi) × (frames.hi < length run.now.ids.now) }
    ensures put { Put (peaks_over (run_in run.now) run.now.params weights.now p frames.lo frames.hi first) out.old result out.new }
    ensures samples { scratch.new.trace.search.samples ≡ scratch.old.trace.search.samples }
{
    let ix = run.index;
    numeric::inner::all_fit(ix.readings);
    numeric::inner::all_fit(weights);
    let e = run.params;
    expand_trace::inner::put_trace(
        ix,
        CheckedScale::of(run.scale),
        e.bin_pad,
        p,
        frames,
        scratch.near,
        scratch.raw,
    );
    let end = frames.hi + 1;
    let n = end - frames.lo;
    let trace = WindowTrace {
        readings: &scratch.raw[..n],
        times: &run.times[frames.lo..end],
        params: e,
        weights,
        at: Placing {
            lo: frames.lo,
            ids: run.ids,
            times: run.times,
            peak: p,
            first,
        },
    };
    trace.follow(&mut scratch.trace, out)
}

// Writes the retention peaks of a mobility peak to the front of `out` and answers how many there are. A `match`: by `map_or` the steps
// would stand in a closure that holds `scratch` and `out`.
pub fn expand_peak(
    run: &FollowedRun<'_>,
    weights: &[f32],
    p: ImPeak1D,
    first: PeakId,
    scratch: &mut RunScratch<'_, '_, '_>,
    out: &mut [u32],
) -> usize
    requires { Expandable (run_in run.now) weights.now p first (length out.old)
        × (length run.now.ids.now ≤ scratch.old.trace.search.samples) }
    ensures put { Put (expanded (run_in run.now) run.now.params weights.now p first) out.old result out.new }
    ensures samples { scratch.new.trace.search.samples ≡ scratch.old.trace.search.samples }
{
    let pad = run.params.rt_pad_frames;
    let w = expand_padded_window::inner::padded_window(run.ids, p.frame_id_lo, p.frame_id_hi, pad);
    match w {
        Some(frames) => expand_over(run, weights, p, frames, first, scratch, out),
        None => 0,
    }
}
