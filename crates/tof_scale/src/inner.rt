// Steps of the scale, for values that a caller has checked.
ghost use Rattle.std.specs.Prelude.{◌≡◌, true, ◌≤◌, ◌<◌};
ghost use Rattle.limits.specs.Limits.{max_tof, max_bin_place};
ghost use Rattle.numeric.specs.Numeric.{in_range};
ghost use Rattle.tof_scale.specs.Tof.{edge, in_scale, bin_of, window_bins, center_f, center_at_f, row_place, sound_step, sound_ends, agreeing, ends_of, scale_of};

use super::{CheckedScale, TofScale};
use row_params::RowPlace;

// Whether a value of a call's own, which number 4 holds to a range, and its TOF values, which number 5 does, are in range. A flag for each
// number, since both may apply.
#[derive(Clone, Copy)]
pub struct Further {
    pub value: bool,
    pub tofs: bool,
}

// Bins or TOF values from a first to a last one. matching's Interval has the same two fields, and methods of matching's own: these would
// have to stand beside a shared struct, in a crate below both.
#[derive(Clone, Copy)]
pub struct Span {
    pub lo: u32,
    pub hi: u32,
}

// ---- what a scale must be

#[tactic(auto, unfolding(crate::specs::Tof::sound_step))]
pub fn sound_step(step: u32) -> bool
    ensures { result ≡ sound_step step }
{
    (1 <= step) & (step <= limits::MAX_STEP)
}

#[tactic(auto, unfolding(crate::specs::Tof::sound_ends))]
pub fn sound_ends(s: TofScale) -> bool
    ensures { result ≡ sound_ends s }
{
    (s.tof_min <= limits::MAX_TOF) & (s.tof_max <= limits::MAX_TOF)
}

#[tactic(auto, unfolding(crate::specs::Tof::agreeing))]
pub fn agrees(s: TofScale) -> bool
    ensures { result ≡ agreeing s }
{
    if s.tof_step == 0 {
        return false;
    }
    if s.tof_max < s.tof_min {
        return false;
    }
    (s.tof_min % s.tof_step == 0)
        & (s.tof_max % s.tof_step == 0)
        & (u64::from(s.num_bins) == u64::from((s.tof_max - s.tof_min) / s.tof_step) + 1)
}

// ---- bins

pub fn in_scale(s: TofScale, tof: u32) -> bool
    ensures { result ≡ in_scale s tof }
{
    (s.tof_min <= tof) & (tof <= s.tof_max)
}

pub fn bin_of(s: TofScale, tof: u32) -> u32
    requires { (0 < s.tof_step) × (s.tof_min ≤ tof) }
    ensures { result ≡ bin_of s tof }
{
    (tof - s.tof_min) / s.tof_step
}

// The first and the last bin of a window.
#[tactic(auto, unfolding(crate::specs::Tof::window_bins))]
pub fn window_bins(s: CheckedScale, a: u32, b: u32) -> Span
    ensures { result ≡ window_bins s.scale a b }
{
    let lo = a.min(b);
    let hi = a.max(b);
    if hi <= s.scale.tof_min {
        return Span { lo: 0, hi: 0 };
    }
    if lo >= s.scale.tof_max {
        let last = s.scale.num_bins - 1;
        return Span { lo: last, hi: last };
    }
    Span {
        lo: bin_of(s.scale, lo.max(s.scale.tof_min)),
        hi: bin_of(s.scale, hi.min(s.scale.tof_max)),
    }
}

// ---- edges and centres

pub fn edge_of(s: CheckedScale, i: u32) -> u32
    requires { i ≤ s.scale.num_bins }
    ensures { result ≡ edge s.scale i }
{
    s.scale.tof_min + i * s.scale.tof_step
}

#[tactic(auto, unfolding(crate::specs::Tof::center_f))]
pub fn center_of(s: CheckedScale, i: u32) -> f32
    requires { i < s.scale.num_bins }
    ensures { result ≡ center_f s.scale i }
{
    0.5 * (numeric::of_u32(edge_of(s, i)) + numeric::of_u32(edge_of(s, i + 1)))
}

// The centre at a place between bins.
pub fn center_between(s: CheckedScale, mu: f32) -> f32
    requires { in_range max_bin_place mu ≡ true }
    ensures { result ≡ center_at_f s.scale mu }
{
    if mu <= 0.0 {
        return center_of(s, 0);
    }
    let last = s.scale.num_bins - 1;
    if mu >= numeric::of_u32(last) {
        return center_of(s, last);
    }
    let i = numeric::cast_sat(mu);
    let t = mu - numeric::of_u32(i);
    center_of(s, i) * (1.0 - t) + center_of(s, (i + 1).min(last)) * t
}

// What row i is told of its place.
pub fn row_place(s: CheckedScale, i: u32) -> RowPlace
    requires { i < s.scale.num_bins }
    ensures { result ≡ row_place s.scale i }
{
    let lo = edge_of(s, i);
    RowPlace {
        tof_row: i,
        tof_center: lo + (s.scale.tof_step + 1) / 2,
        tof_lo: lo,
        tof_hi: lo + s.scale.tof_step,
    }
}

// ---- a scale of TOF values

// The lowest and the highest of some values. Those of no values are the highest number and 0: one test, `lo < hi`, is false of no value and
// of one distinct value, where an `Option` would take a second one.
pub fn ends_of(tofs: &[u32]) -> Span
    ensures { result ≡ ends_of tofs.now }
{
    tofs.iter().fold(
        Span {
            lo: u32::MAX,
            hi: 0,
        },
        |e, &t| Span {
            lo: e.lo.min(t),
            hi: e.hi.max(t),
        },
    )
}

// The scale from the lowest value to the highest.
#[tactic(auto, unfolding(crate::specs::Tof::scale_of))]
pub fn scale_of(lo: u32, hi: u32, step: u32) -> TofScale
    requires { (0 < step) × (lo ≤ hi) × (hi ≤ max_tof) }
    ensures { result ≡ scale_of lo hi step }
{
    let tof_min = lo - lo % step;
    let tof_max = hi - hi % step;
    TofScale {
        tof_min,
        tof_max,
        tof_step: step,
        num_bins: (tof_max - tof_min) / step + 1,
    }
}
