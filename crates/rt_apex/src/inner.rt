// Steps over an apex of a trace that the caller has checked.
ghost use Rattle.std.specs.Prelude.{◌≡◌, ◌≤◌, ◌<◌, ◌+◌, length};
ghost use Rattle.limits.specs.Limits.{exact_index};
ghost use Rattle.numeric.specs.Arith.{◌⊕◌, index_f};
ghost use Rattle.rt_time.specs.Time.{time_at};
ghost use Rattle.rt_apex.specs.InTime.{subframe, apex_time, seconds_of, local_peak_of};
ghost use Rattle.rt_apex.specs.Steps.{Inside};

use row_search::inner::Measured;
use rt_record::{RtApex, RtLocalPeak};

// A retention trace: smoothed, as it was measured, and the time of each frame. How long the lists are stands in clauses: the
// entry of retention fills the struct before it compares them, and each function asks another length.
#[derive(Clone, Copy)]
pub struct Trace<'a> {
    pub smoothed: &'a [f32],
    pub raw: &'a [f32],
    pub times: &'a [f32],
}

// When an apex starts and ends, and how long it lasts.
#[derive(Clone, Copy)]
pub struct Seconds {
    pub left: f32,
    pub right: f32,
    pub width: f32,
}

// The times at two places of a trace of n frames, each held to the trace, and the seconds between.
#[tactic(auto, unfolding(crate::specs::InTime::seconds_of))]
pub fn seconds_of(t: &[f32], n: usize, left_x: f32, right_x: f32) -> Seconds
    requires { (0 < n) × (n ≤ exact_index) × (length t.now ≤ exact_index) }
    ensures { result ≡ seconds_of t.now n left_x right_x }
{
    let last = numeric::inner::of_index(n - 1);
    let left = rt_time::inner::t_at_index_frac(t, numeric::max(left_x, 0.0));
    let right = rt_time::inner::t_at_index_frac(t, numeric::min(right_x, last));
    Seconds {
        left,
        right,
        width: numeric::max(right - left, 0.0),
    }
}

impl<'a> Trace<'a> {
    // How far the apex at i lies from its frame, as apex tells it.
    #[tactic(auto, unfolding(crate::specs::InTime::subframe, row_apex::specs::Apex::offset_of))]
    pub fn subframe(self, i: usize) -> f32
        requires { (0 < i) × (i + 1 < length self.smoothed.now) }
        ensures { result ≡ subframe self.entry.smoothed.now i }
    {
        row_apex::inner::offset_of(self.smoothed, i)
    }

    // The time at a share of a frame behind frame i.
    fn time_beside(self, i: usize, sub: f32) -> f32
        requires { (i ≤ exact_index) × (length self.times.now ≤ exact_index) }
        ensures { result ≡ time_at self.entry.times.now (index_f i ⊕ sub) }
    {
        rt_time::inner::t_at_index_frac(self.times, numeric::inner::of_index(i) + sub)
    }

    // The time of the apex at i.
    #[tactic(auto, unfolding(crate::specs::InTime::apex_time))]
    pub fn apex_time(self, i: usize) -> f32
        requires { (0 < i) × (i + 1 < length self.smoothed.now) × (length self.smoothed.now ≤ exact_index) × (length self.times.now ≤ exact_index) }
        ensures { result ≡ apex_time self.entry.smoothed.now self.entry.times.now i }
    {
        self.time_beside(i, self.subframe(i))
    }

    // The times at two places, each held to the trace, and the seconds between.
    pub fn seconds_between(self, left_x: f32, right_x: f32) -> Seconds
        requires { (0 < length self.smoothed.now) × (length self.smoothed.now ≤ exact_index) × (length self.times.now ≤ exact_index) }
        ensures { result ≡ seconds_of self.entry.times.now (length self.entry.smoothed.now) left_x right_x }
    {
        seconds_of(self.times, self.smoothed.len(), left_x, right_x)
    }

    // The peak of an apex, by what is measured of it.
    pub fn local_peak(self, a: Measured) -> RtLocalPeak
        requires { Inside self.smoothed.now self.raw.now self.times.now a }
        ensures { result ≡ local_peak_of self.entry.smoothed.now self.entry.raw.now self.entry.times.now a.index }
    {
        let i = a.index;
        let sub = self.subframe(i);
        let s = self.seconds_between(a.left_x, a.right_x);
        let apex = RtApex {
            rt_idx: i as u32,
            rt_sec: self.time_beside(i, sub),
            apex_smoothed: self.smoothed[i],
            apex_raw: self.raw[i],
            prominence: a.prominence,
            left_x: a.left_x,
            right_x: a.right_x,
            width_frames: a.width,
            area_raw: a.area,
            subframe: sub,
        };
        RtLocalPeak {
            apex,
            left_sec: s.left,
            right_sec: s.right,
            width_sec: s.width,
        }
    }
}
