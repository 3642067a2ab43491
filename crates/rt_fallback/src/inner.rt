// Steps over a trace that the caller has checked.
ghost use Rattle.std.specs.Prelude.{◌≡◌, cond, Some, None, ◌≤◌, ◌<◌, length};
ghost use Rattle.std.specs.Float.Ieee.{le};
ghost use Rattle.numeric.specs.Arith.{𝟎};
ghost use Rattle.limits.specs.Limits.{exact_index};
ghost use Rattle.row_apex.specs.Apex.{least};
ghost use Rattle.rt_fallback.specs.Fallback.{∞, top_of, sums_of, centroid, time_of, number_at, bounds_of, apex_of, fallback_of};

use row_apex::inner::Level;
use row_record::ImPeak1D;
use row_spans::inner::{Apex, Span};
use rt_record::{PeakId, RtApex, RtBounds, RtPeak1D};

// The highest reading of a trace, and its place.
#[derive(Clone, Copy)]
pub struct Top {
    pub place: usize,
    pub height: f32,
}

// The sum of the readings, and of each times its place.
#[derive(Clone, Copy, Default)]
pub struct Sums {
    pub mass: f32,
    pub moment: f32,
}

// The highest reading above 0, of equal ones the first. No `then_some`: its test would be that the height is above 0, the opposite of the
// one below only for a height that is no NaN.
fn top_of(y: &[f32]) -> Option<Top>
    ensures { result ≡ cond (le (top_of y.now).height 𝟎) None (Some (top_of y.now)) }
{
    let start = Top {
        place: 0,
        height: 0.0,
    };
    let top = y.iter().enumerate().fold(start, |top, (place, &height)| {
        if height > top.height {
            Top { place, height }
        } else {
            top
        }
    });
    if top.height <= 0.0 { None } else { Some(top) }
}

fn sums_of(y: &[f32]) -> Sums
    requires { length y.now ≤ exact_index }
    ensures { result ≡ sums_of y.now }
{
    y.iter().enumerate().fold(
        Sums::default(),
        |s, (i, &v)| Sums {
            mass: s.mass + v,
            moment: s.moment + numeric::inner::of_index(i) * v,
        },
    )
}

// The least reading, infinity for none.
fn least_of(y: &[f32]) -> f32
    ensures { result ≡ least ∞ y.now }
{
    let infinity = numeric::float_of(0x7f80_0000);
    y.iter().fold(infinity, |m, &v| if v < m { v } else { m })
}

// The centre of mass of a trace, in frames; a given place where there is no mass.
fn centroid_of(y: &[f32], place: usize) -> f32
    requires { (length y.now ≤ exact_index) × (place ≤ exact_index) }
    ensures { result ≡ centroid y.now place }
{
    let s = sums_of(y);
    if s.mass > 0.0 {
        s.moment / s.mass
    } else {
        numeric::inner::of_index(place)
    }
}

// The time at frame i and a part of the way to the next one.
fn time_of(t: &[f32], i: u32, sub: f32) -> f32
    requires { 0 < length t.now }
    ensures { result ≡ time_of t.now i sub }
{
    let j = (i as usize).min(t.len() - 1);
    let x = sub + numeric::of_u32(i) - numeric::of_u32(j as u32);
    rt_time::inner::time_between(t, j, numeric::clamp(x, 0.0, 1.0))
}

// The number of a frame, the last one's past the list.
fn number_at(ids: &[u32], k: u32) -> u32
    requires { 0 < length ids.now }
    ensures { result ≡ number_at ids.now k }
{
    let at = (k as usize).min(ids.len() - 1);
    ids[at]
}

// Two frames in order, and their numbers in order; those of the mobility peak where there are none.
fn bounds_of(ids: &[u32], p: ImPeak1D, left: u32, right: u32) -> RtBounds
    ensures { result ≡ bounds_of ids.now p left right }
{
    let rt_lo = left.min(right);
    let rt_hi = left.max(right);
    if ids.is_empty() {
        return RtBounds {
            rt_lo,
            rt_hi,
            frame_id_lo: p.frame_id_lo,
            frame_id_hi: p.frame_id_hi,
        };
    }
    let a = number_at(ids, rt_lo);
    let b = number_at(ids, rt_hi);
    RtBounds {
        rt_lo,
        rt_hi,
        frame_id_lo: a.min(b),
        frame_id_hi: a.max(b),
    }
}

// The apex, from the highest reading and the span at the threshold.
fn apex_of(y: &[f32], t: &[f32], top: Top, s: Span) -> RtApex
    requires { (0 < length y.now) × (length y.now ≤ exact_index) × (0 < length t.now) × (top.place ≤ exact_index) }
    ensures { result ≡ apex_of y.now t.now top s }
{
    let place = top.place;
    let mu = centroid_of(y, place);
    let last = numeric::inner::of_index(y.len() - 1);
    let rt_idx = rounding::near::floor_sample(mu, place, last);
    let subframe = numeric::clamp(mu - numeric::of_u32(rt_idx), -0.5, 0.5);
    let rt_sec = time_of(t, rt_idx, subframe);
    let prominence = numeric::max(top.height - least_of(y), 0.0);
    RtApex {
        rt_idx,
        rt_sec,
        apex_smoothed: top.height,
        apex_raw: top.height,
        prominence,
        left_x: s.left_x,
        right_x: s.right_x,
        width_frames: s.width,
        area_raw: s.area,
        subframe,
    }
}

// The retention peak of a trace of the mobility peak p, with the ends at the share `frac` of its highest reading; none where
// no reading is above 0. Frames are those of the trace. Their numbers and times stand apart: there may be times without numbers.
pub fn fallback_rt_peak_from_trace(
    trace: &[f32],
    ids: &[u32],
    times: &[f32],
    p: ImPeak1D,
    frac: f32,
    id: PeakId,
) -> Option<RtPeak1D>
    requires { (length trace.now ≤ exact_index) × (0 < length trace.now → 0 < length times.now) }
    ensures { result ≡ fallback_of trace.now ids.now times.now p frac id }
{
    let top = top_of(trace)?;
    let threshold = frac * top.height;
    let place = top.place;
    let reach = row_spans::inner::reach_of(Level {
        y: trace,
        h: threshold,
        i: place,
    });
    let found = Apex {
        y: trace,
        z: trace,
        h: threshold,
        i: place,
    };
    let span = found.span_of(reach);
    let apex = apex_of(trace, times, top, span);
    let bounds = bounds_of(ids, p, span.left, span.right);
    Some(rt_record::inner::rt_peak_of(apex, bounds, p, id))
}
