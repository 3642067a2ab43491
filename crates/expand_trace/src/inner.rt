// Steps for a mobility peak, a window and a run that the caller has checked.
ghost use Rattle.std.specs.Prelude.{◌≡◌, ◌++◌, ◌≤◌, ◌<◌, ◌+◌, ◌-◌, length, drop};
ghost use Rattle.limits.specs.Limits.{max_count, exact_index};
ghost use Rattle.rt_record.specs.RtRecord.{rt_size, rt_words};
ghost use Rattle.expand_placed.specs.Placed.{placed};
ghost use Rattle.expand_trace.specs.Trace.{trace_over, any_above, way_of};
ghost use Rattle.expand_trace.specs.FallbackPeaks.{fallback_peaks, Put};

use expand_padded_window::Frames;
use frames_index::CheckedIndex;
use frames_sums::inner::FrameRange;
use row_record::{ImPeak1D, PeakId};
use rt_record::RtApex;
use tof_scale::CheckedScale;

// Which way a mobility peak takes whose frames are known: its trace has no reading above 0, it has fewer frames than are searched, or
// it is smoothed and searched. Three ways by name, none of which carries a value.
#[derive(Clone, Copy)]
pub enum Way {
    AllZero,
    TooShort,
    Smoothed,
}

// What the retention peaks of a mobility peak are made of besides its trace over the frames from `lo` on: the numbers and the times of all
// frames of the run, the mobility peak, and the identity of the first.
#[derive(Clone, Copy)]
pub struct Placing<'a> {
    pub lo: usize,
    pub ids: &'a [u32],
    pub times: &'a [f32],
    pub peak: ImPeak1D,
    pub first: PeakId,
}

// The readings of a peak's bins and scans, summed for each of some frames. `near` is scratch, a word a frame of the run: where the
// search of that frame begins. The clauses on pad, frames and lists are those of a run and a window: the run stands in a crate above, and
// a window is known here as two frames. So `ix`, `scale` and `pad` come one by one, and are not taken from a run.
#[tactic(auto, unfolding(crate::specs::Trace::trace_over))]
pub fn put_trace(
    ix: &CheckedIndex,
    scale: CheckedScale,
    pad: u32,
    p: ImPeak1D,
    frames: Frames,
    near: &mut [u32],
    out: &mut [f32],
)
    requires { (pad ≤ max_count) × (frames.lo ≤ frames.hi) × (frames.hi + 1 < length ix.now.starts) × (frames.hi + 1 - frames.lo ≤ length out.old) × (frames.hi < length near.old) }
    ensures { out.new ≡ trace_over ix.now scale.scale pad p frames.lo frames.hi ++ drop (frames.hi + 1 - frames.lo) out.old }
{
    let w = frames_windows::inner::peak_window(scale, pad, p);
    let range = FrameRange {
        from: frames.lo,
        count: frames.hi + 1 - frames.lo,
    };
    frames_window_sums::inner::put_frame_sums_near(ix, range, w, near, out);
}

// Whether a value is above 0.
fn any_above(x: &[f32]) -> bool
    ensures { result ≡ any_above x.now }
{
    x.iter().fold(false, |any, &v| any | (0.0 < v))
}

#[tactic(auto, unfolding(crate::specs::Trace::way_of))]
pub fn way_of(x: &[f32], least: u32) -> Way
    ensures { result ≡ way_of x.now least }
{
    if !any_above(x) {
        return Way::AllZero;
    }
    if x.len() < least as usize {
        Way::TooShort
    } else {
        Way::Smoothed
    }
}

impl<'a> Placing<'a> {
    // Writes the retention peak of an apex of the trace of n frames to the front of `out`.
    #[tactic(auto, unfolding(rt_record::specs::RtRecord::with_rt_peak))]
    pub fn put_apex(self, n: usize, a: RtApex, out: &mut [u32])
        requires { (0 < n) × (self.lo + n ≤ length self.ids.now) × (length self.ids.now ≤ exact_index) × (a.rt_idx < n) × (rt_size ≤ length out.old) }
        ensures { out.new ≡ rt_words (placed self.entry.lo n self.entry.ids.now self.entry.peak a self.entry.first) ++ drop rt_size out.old }
    {
        let q = expand_placed::inner::place_apex(self.lo, n, self.ids, self.peak, a, self.first);
        rt_record::inner::put_rt_peak(out, 0, q);
    }

    // Writes the fallback's peak of the trace to the front of `out`, if there is one, and answers how many were written. The fallback is
    // handed the times and the numbers of the whole run. A `match`: by `map_or` the write would stand in a closure that holds `out`.
    pub fn put_fallback(self, x: &[f32], frac: f32, out: &mut [u32]) -> usize
        requires { (0 < length x.now) × (self.lo + length x.now ≤ length self.ids.now) × (length self.ids.now ≤ exact_index) × (0 < length self.times.now) × (rt_size ≤ length out.old) }
        ensures { Put (fallback_peaks x.now self.entry.lo self.entry.ids.now self.entry.times.now self.entry.peak frac self.entry.first) out.old result out.new }
    {
        let found = rt_fallback::inner::fallback_rt_peak_from_trace(
            x, self.ids, self.times, self.peak, frac, self.first,
        );
        match found {
            Some(q) => {
                self.put_apex(x.len(), q.apex, out);
                1
            }
            None => 0,
        }
    }
}
