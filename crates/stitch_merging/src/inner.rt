// A group is walked once, in its order: `start` with its first peak, `join` with each further one, and `finish`.
ghost use Rattle.std.specs.Prelude.{◌≡◌, Bool, true, cond, ◌&&◌, ℕ, List, [], ◌∷◌, ◌++◌, is_some};
ghost use Rattle.std.specs.Bool.{then_some};
ghost use Rattle.std.specs.Float.Ieee.{lt};
ghost use Rattle.numeric.specs.Arith.{◌⊘◌, 𝟎, 𝟏};
ghost use Rattle.row_record.specs.declared.ImPeak1D.{ImPeak1D};
ghost use Rattle.stitch_peaks.specs.Extremes.{is_any};
ghost use Rattle.stitch_merging.specs.Merging.{weight, whole, width_of, flags_of, of_group, merged};
ghost use Rattle.stitch_merging.specs.Walk.{sums_of, bounds_of, heights_of, sigma_of, Holds};

use row_record::{ImPeak1D, PeakId};

// Sums over the peaks so far: of their weights, of their areas, and of five further fields, each value times the peak's weight.
#[derive(Clone, Copy, Default)]
pub struct Sums {
    pub weight: f32,
    pub area: f32,
    pub tof_row: f32,
    pub tof_center: f32,
    pub scan: f32,
    pub scan_abs: f32,
    pub subscan: f32,
}

// The extremes of the bounds of the peaks so far.
#[derive(Clone, Copy)]
pub struct Bounds {
    pub tof_lo: u32,
    pub tof_hi: u32,
    pub rt_lo: u32,
    pub rt_hi: u32,
    pub frame_id_lo: u32,
    pub frame_id_hi: u32,
    pub left: u32,
    pub right: u32,
    pub left_abs: u32,
    pub right_abs: u32,
}

// The highest of the heights of the peaks so far.
#[derive(Clone, Copy)]
pub struct Heights {
    pub smoothed: f32,
    pub raw: f32,
    pub prominence: f32,
}

// Sums over the peaks so far that have a scan sigma: of their weights, and of their values times their weights. No peak yet is 0 and 0:
// an Option of both sums makes a merge of peaks that are alike 1.3 times as long (both forms in Rust).
#[derive(Clone, Copy, Default)]
pub struct SigmaSums {
    pub weight: f32,
    pub sigma: f32,
}

// What is kept of the peaks of a group so far. The mobility is that of the first peak that has one, the group that of all the peaks, where
// they are of one.
#[derive(Clone, Copy)]
pub struct Merging {
    pub sums: Sums,
    pub bounds: Bounds,
    pub heights: Heights,
    pub sigma: SigmaSums,
    pub mobility: Option<f32>,
    pub group: Option<u32>,
    pub id: PeakId,
}

// ---- of one peak

#[tactic(auto, unfolding(crate::specs::Merging::weight))]
fn weight_of(p: ImPeak1D) -> f32
    ensures { result ≡ weight p }
{
    numeric::at_least_one(p.area_raw)
}

fn is_of_group(g: u32, p: ImPeak1D) -> bool
    ensures { result ≡ of_group g p }
{
    p.group() == Some(g)
}

// A window group, if a peak is of it.
fn of_group_too(group: Option<u32>, p: ImPeak1D) -> Option<u32>
    ensures { (there : Bool) (g : ℕ) → group ≡ then_some there g → result ≡ then_some (there && of_group g p) g }
{
    group.filter(|g| is_of_group(*g, p))
}

// ---- what is kept: of the first peak, and with one more

impl Sums {
    // A sum starts at 0, and takes the first peak like any other: a minus zero becomes plus zero.
    fn start(p: ImPeak1D) -> Sums
        ensures { result ≡ sums_of (p ∷ []) }
    {
        Sums::default().join(p)
    }

    fn join(self, p: ImPeak1D) -> Sums
        ensures { (ps : List ImPeak1D) → self ≡ sums_of ps → result ≡ sums_of (ps ++ (p ∷ [])) }
    {
        let weight = weight_of(p);
        Sums {
            weight: self.weight + weight,
            area: self.area + p.area_raw,
            tof_row: self.tof_row + numeric::of_u32(p.tof_row) * weight,
            tof_center: self.tof_center + numeric::of_u32(p.tof_center) * weight,
            scan: self.scan + numeric::of_u32(p.scan) * weight,
            scan_abs: self.scan_abs + numeric::of_u32(p.scan_abs) * weight,
            subscan: self.subscan + p.subscan * weight,
        }
    }
}

impl SigmaSums {
    fn join(self, p: ImPeak1D) -> SigmaSums
        ensures { (ps : List ImPeak1D) → self ≡ sigma_of ps → result ≡ sigma_of (ps ++ (p ∷ [])) }
    {
        let weight = weight_of(p);
        p.sigma().map_or(
            self,
            |sigma| SigmaSums {
                weight: self.weight + weight,
                sigma: self.sigma + sigma * weight,
            },
        )
    }

    // The mean, where the weights come to more than 0: where a peak has a scan sigma.
    fn mean(self) -> Option<f32>
        ensures { result ≡ then_some (lt 𝟎 self.weight) (self.sigma ⊘ self.weight) }
    {
        (self.weight > 0.0).then_some(self.sigma / self.weight)
    }
}

impl Bounds {
    #[tactic(auto, unfolding(crate::specs::Walk::bounds_of, stitch_peaks::specs::Extremes::extreme))]
    fn start(p: ImPeak1D) -> Bounds
        ensures { result ≡ bounds_of (p ∷ []) }
    {
        Bounds {
            tof_lo: p.tof_lo,
            tof_hi: p.tof_hi,
            rt_lo: p.rt_lo,
            rt_hi: p.rt_hi,
            frame_id_lo: p.frame_id_lo,
            frame_id_hi: p.frame_id_hi,
            left: p.left,
            right: p.right,
            left_abs: p.left_abs,
            right_abs: p.right_abs,
        }
    }

    fn join(self, p: ImPeak1D) -> Bounds
        ensures { (ps : List ImPeak1D) → is_any ps ≡ true → self ≡ bounds_of ps → result ≡ bounds_of (ps ++ (p ∷ [])) }
    {
        Bounds {
            tof_lo: self.tof_lo.min(p.tof_lo),
            tof_hi: self.tof_hi.max(p.tof_hi),
            rt_lo: self.rt_lo.min(p.rt_lo),
            rt_hi: self.rt_hi.max(p.rt_hi),
            frame_id_lo: self.frame_id_lo.min(p.frame_id_lo),
            frame_id_hi: self.frame_id_hi.max(p.frame_id_hi),
            left: self.left.min(p.left),
            right: self.right.max(p.right),
            left_abs: self.left_abs.min(p.left_abs),
            right_abs: self.right_abs.max(p.right_abs),
        }
    }
}

impl Heights {
    // The heights start at the lowest finite float.
    fn start(p: ImPeak1D) -> Heights
        ensures { result ≡ heights_of (p ∷ []) }
    {
        let least = numeric::float_of(0xff7f_ffff);
        let none = Heights {
            smoothed: least,
            raw: least,
            prominence: least,
        };
        none.join(p)
    }

    fn join(self, p: ImPeak1D) -> Heights
        ensures { (ps : List ImPeak1D) → self ≡ heights_of ps → result ≡ heights_of (ps ++ (p ∷ [])) }
    {
        Heights {
            smoothed: numeric::max(self.smoothed, p.apex_smoothed),
            raw: numeric::max(self.raw, p.apex_raw),
            prominence: numeric::max(self.prominence, p.prominence),
        }
    }
}

impl Merging {
    pub fn start(p: ImPeak1D) -> Merging
        ensures { Holds result (p ∷ []) }
    {
        Merging {
            sums: Sums::start(p),
            bounds: Bounds::start(p),
            heights: Heights::start(p),
            sigma: SigmaSums::default().join(p),
            mobility: p.mobility(),
            group: of_group_too(Some(p.window_group), p),
            id: p.id,
        }
    }

    // What is kept with one more peak.
    pub fn join(self, p: ImPeak1D) -> Merging
        ensures { (ps : List ImPeak1D) → Holds self ps → Holds result (ps ++ (p ∷ [])) }
    {
        Merging {
            sums: self.sums.join(p),
            bounds: self.bounds.join(p),
            heights: self.heights.join(p),
            sigma: self.sigma.join(p),
            mobility: self.mobility.or(p.mobility()),
            group: of_group_too(self.group, p),
            id: self.id.min(p.id),
        }
    }

    // Which of the three fields that may be missing are there, in the bits of a record's flags.
    #[tactic(auto, using(row_record::proofs::Missing::some_then))]
    fn flags(self) -> u32
        ensures { result ≡ flags_of (is_some self.group) (is_some self.mobility) (lt 𝟎 self.sigma.weight) }
    {
        u32::from(self.group.is_some()) * ImPeak1D::HAS_GROUP
            + u32::from(self.mobility.is_some()) * ImPeak1D::HAS_MOBILITY
            + u32::from(self.sigma.mean().is_some()) * ImPeak1D::HAS_SIGMA
    }

    // The peak into which they are merged.
    pub fn finish(self) -> ImPeak1D
        ensures { (ps : List ImPeak1D) → Holds self ps → result ≡ merged ps }
    {
        let s = self.sums;
        let b = self.bounds;
        let h = self.heights;
        let divisor = divisor_of(s.weight);
        ImPeak1D {
            tof_row: whole_mean(s.tof_row, divisor),
            tof_center: whole_mean(s.tof_center, divisor),
            tof_lo: b.tof_lo,
            tof_hi: b.tof_hi,
            rt_lo: b.rt_lo,
            rt_hi: b.rt_hi,
            frame_id_lo: b.frame_id_lo,
            frame_id_hi: b.frame_id_hi,
            flags: self.flags(),
            window_group: self.group.unwrap_or(0),
            scan: whole_mean(s.scan, divisor),
            left: b.left,
            right: b.right,
            scan_abs: whole_mean(s.scan_abs, divisor),
            left_abs: b.left_abs,
            right_abs: b.right_abs,
            scan_sigma: self.sigma.mean().unwrap_or(0.0),
            mobility: self.mobility.unwrap_or(0.0),
            apex_smoothed: h.smoothed,
            apex_raw: h.raw,
            prominence: h.prominence,
            left_x: numeric::of_u32(b.left_abs),
            right_x: numeric::of_u32(b.right_abs),
            width_scans: width_of(b.left_abs, b.right_abs),
            area_raw: s.area,
            subscan: s.subscan / divisor,
            id: self.id,
        }
    }
}

// ---- the merged peak

// What the sums are divided by: the weights, or 1 where these do not come to more than 0.
fn divisor_of(weight: f32) -> f32
    ensures { result ≡ cond (lt 𝟎 weight) weight 𝟏 }
{
    if weight > 0.0 { weight } else { 1.0 }
}

// The whole number nearest to a mean. Below 2 ^ 23 it is half of one more than the whole halves, and no test has to tell on which side of
// a whole number the mean lies, which nobody can foresee. The Rust casts that of the TOF centres to i32 and does not raise it to 0: the
// same, since accepted centres are not negative and far below 2 ^ 31.
fn whole_of(mean: f32) -> u32
    ensures { result ≡ whole mean }
{
    if mean < 8388608.0 {
        if 0.0 < mean {
            return (numeric::cast_sat(mean + mean) + 1) / 2;
        }
    }
    numeric::cast_sat(numeric::max(rounding::round(mean), 0.0))
}

fn whole_mean(sum: f32, divisor: f32) -> u32
    ensures { result ≡ whole (sum ⊘ divisor) }
{
    whole_of(sum / divisor)
}

fn width_of(from: u32, to: u32) -> u32
    ensures { result ≡ width_of from to }
{
    to.saturating_sub(from).saturating_add(1)
}
