// The tests of stitching. Each takes any values.
ghost use Rattle.std.specs.Prelude.{◌≡◌, min, max, List, [], ◌∷◌, ◌<◌, ◌-◌};
ghost use Rattle.row_record.specs.Record.{peak_at};
ghost use Rattle.row_record.specs.declared.ImPeak1D.{ImPeak1D as PeakT};
ghost use Rattle.stitch_matching.specs.Matching.{samples, overlap, jaccard_f, enough_common, at_most};
ghost use Rattle.stitch_matching.specs.Matching.{same_group, rows_near, frames_overlap, scans_overlap, inside, apexes_inside, compatible};
ghost use Rattle.stitch_matching.specs.Group.{Covers, within_limits, may_join};

use super::StitchParams;
use row_record::ImPeak1D;
use stitch_peaks::Records;

// Whether n is at most a limit. A limit of 0 is none, since the parameters and the C entry have a word for it (docs/SCOPE.md), and no
// Option.
#[tactic(auto, unfolding(crate::specs::Matching::at_most))]
fn at_most(limit: u32, n: u32) -> bool
    ensures { result ≡ at_most limit n }
{
    (limit == 0) | (n <= limit)
}

// From one sample to another, ends included; none if the ends are reversed. tof's `Span` has the same fields for two bins or two TOF
// values; no crate below both is about either.
#[derive(Clone, Copy, PartialEq, Eq)]
pub struct Interval {
    pub lo: u32,
    pub hi: u32,
}

impl Interval {
    // How many samples it has. One count does not fit, that of all numbers; it is held to 2^32 - 1, which is the same float.
    #[tactic(auto, unfolding(crate::specs::Matching::samples))]
    fn samples(self) -> u32
        ensures { result ≡ samples self.lo self.hi }
    {
        self.hi
            .checked_sub(self.lo)
            .map_or(0, |more| more.saturating_add(1))
    }

    // What two have in common.
    fn common(self, other: Interval) -> Interval
        ensures lo { result.lo ≡ max self.lo other.lo }
        ensures hi { result.hi ≡ min self.hi other.hi }
    {
        Interval {
            lo: self.lo.max(other.lo),
            hi: self.hi.min(other.hi),
        }
    }

    // The samples that two have in common.
    #[tactic(auto, unfolding(crate::specs::Matching::overlap))]
    pub fn overlap(self, other: Interval) -> u32
        ensures { result ≡ overlap self.lo self.hi other.lo other.hi }
    {
        self.common(other).samples()
    }

    // Their share of all samples of the two.
    #[tactic(auto, unfolding(crate::specs::Matching::jaccard_f))]
    pub fn jaccard(self, other: Interval) -> f32
        ensures { result ≡ jaccard_f self.lo self.hi other.lo other.hi }
    {
        let common = numeric::of_u32(self.overlap(other));
        if common <= 0.0 {
            return 0.0;
        }
        let a = numeric::of_u32(self.samples());
        let b = numeric::of_u32(other.samples());
        common / numeric::at_least_one(a + b - common)
    }

    // Whether two have at least `least` samples in common, and at least the share, if that is above 0.
    #[tactic(auto, unfolding(crate::specs::Matching::enough_common))]
    fn shares_enough(self, other: Interval, least: u32, share: f32) -> bool
        ensures { result ≡ enough_common least share self.lo self.hi other.lo other.hi }
    {
        least <= self.overlap(other) && !(0.0 < share && self.jaccard(other) < share)
    }

    // The same, with a short way for two intervals that are one: their share is 1, and they have one sample more than their ends lie apart.
    fn has_enough(self, other: Interval, least: u32, share: f32) -> bool
        ensures { result ≡ enough_common least share self.lo self.hi other.lo other.hi }
    {
        let same = (self == other) & (self.lo <= self.hi) & (share <= 1.0);
        if same {
            return least.saturating_sub(1) <= self.hi - self.lo;
        }
        self.shares_enough(other, least, share)
    }

    // Whether a scan lies in it, compared as floats.
    #[tactic(auto, unfolding(crate::specs::Matching::inside))]
    fn has_scan(self, scan: u32) -> bool
        ensures { result ≡ inside self.lo self.hi scan }
    {
        let s = numeric::of_u32(scan);
        (numeric::of_u32(self.lo) <= s) & (s <= numeric::of_u32(self.hi))
    }
}

fn same_group(p: StitchParams, a: ImPeak1D, b: ImPeak1D) -> bool
    ensures { result ≡ same_group p a b }
{
    // the same words say the same group
    if (a.flags == b.flags) & (a.window_group == b.window_group) {
        return true;
    }
    p.allow_cross_groups | (a.group() == b.group())
}

#[tactic(auto, unfolding(crate::specs::Matching::rows_near))]
fn rows_near(p: StitchParams, a: ImPeak1D, b: ImPeak1D) -> bool
    ensures { result ≡ rows_near p a b }
{
    at_most(p.max_tof_row_delta, a.tof_row.abs_diff(b.tof_row))
}

// The frames of a peak.
fn frames(p: ImPeak1D) -> Interval
    ensures { result ≡ record { lo = p.rt_lo; hi = p.rt_hi } }
{
    Interval {
        lo: p.rt_lo,
        hi: p.rt_hi,
    }
}

// Its scans, counted from the window's first.
fn scans(p: ImPeak1D) -> Interval
    ensures { result ≡ record { lo = p.left; hi = p.right } }
{
    Interval {
        lo: p.left,
        hi: p.right,
    }
}

// Its absolute scans.
fn scans_abs(p: ImPeak1D) -> Interval
    ensures { result ≡ record { lo = p.left_abs; hi = p.right_abs } }
{
    Interval {
        lo: p.left_abs,
        hi: p.right_abs,
    }
}

#[tactic(auto, unfolding(crate::specs::Matching::frames_overlap))]
fn frames_overlap(p: StitchParams, a: ImPeak1D, b: ImPeak1D) -> bool
    ensures { result ≡ frames_overlap p a b }
{
    frames(a).has_enough(frames(b), p.min_overlap_frames, p.jaccard_min)
}

#[tactic(auto, unfolding(crate::specs::Matching::scans_overlap))]
fn scans_overlap(p: StitchParams, a: ImPeak1D, b: ImPeak1D) -> bool
    ensures { result ≡ scans_overlap p a b }
{
    scans(a).has_enough(scans(b), p.min_im_overlap_scans, p.im_jaccard_min)
}

#[tactic(auto, unfolding(crate::specs::Matching::apexes_inside))]
fn apexes_inside(p: StitchParams, a: ImPeak1D, b: ImPeak1D) -> bool
    ensures { result ≡ apexes_inside p a b }
{
    if p.require_mutual_apex_inside {
        let both = scans_abs(a).common(scans_abs(b));
        return (both.lo <= both.hi) & both.has_scan(a.scan_abs) & both.has_scan(b.scan_abs);
    }
    true
}

// Whether two peaks that follow each other may stand in one group.
#[tactic(auto, unfolding(crate::specs::Matching::compatible))]
pub fn compatible_fast(a: ImPeak1D, b: ImPeak1D, p: StitchParams) -> bool
    ensures { result ≡ compatible p a b }
{
    same_group(p, a, b)
        && rows_near(p, a, b)
        && frames_overlap(p, a, b)
        && scans_overlap(p, a, b)
        && apexes_inside(p, a, b)
}

// The lowest and the highest row and absolute scan among the members of a group.
#[derive(Clone, Copy)]
pub struct Spans {
    pub min_row: u32,
    pub max_row: u32,
    pub min_scan: u32,
    pub max_scan: u32,
}

impl Spans {
    // Those of a group of one.
    #[tactic(auto, unfolding(stitch_peaks::specs::Extremes::extreme))]
    pub fn of_one(p: ImPeak1D) -> Spans
        ensures { Covers result (p ∷ []) }
    {
        Spans {
            min_row: p.tof_row,
            max_row: p.tof_row,
            min_scan: p.scan_abs,
            max_scan: p.scan_abs,
        }
    }

    // Those of a group that takes in one more.
    pub fn widened(self, p: ImPeak1D) -> Spans
        ensures { (q : PeakT) (ps : List PeakT) → Covers self (q ∷ ps) → Covers result (p ∷ (q ∷ ps)) }
    {
        Spans {
            min_row: p.tof_row.min(self.min_row),
            max_row: p.tof_row.max(self.max_row),
            min_scan: p.scan_abs.min(self.min_scan),
            max_scan: p.scan_abs.max(self.max_scan),
        }
    }

    // Whether a group may lie so far apart.
    #[tactic(auto, unfolding(crate::specs::Group::within_limits))]
    pub fn fit(self, p: StitchParams) -> bool
        ensures { result ≡ within_limits p (self.max_row - self.min_row) (self.max_scan - self.min_scan) }
    {
        at_most(
            p.max_tof_row_delta,
            self.max_row.saturating_sub(self.min_row),
        ) & at_most(
            p.max_scan_delta,
            self.max_scan.saturating_sub(self.min_scan),
        )
    }
}

// A test of the peaks at places k - 1 and k. It reads its peaks itself, so that only the words that it looks at are read, and
// only if it is asked.
fn at<F: Fn(StitchParams, ImPeak1D, ImPeak1D) -> bool>(
    records: Records<'_>,
    k: usize,
    params: StitchParams,
    test: F,
) -> bool
    requires pair { (0 < k) × (k < records.count) }
    requires asked { F.pre test params (peak_at records.words.now (k - 1)) (peak_at records.words.now k) }
    ensures { F.post test params (peak_at records.entry.words.now (k - 1)) (peak_at records.entry.words.now k) result }
{
    test(params, records.peak(k - 1), records.peak(k))
}

// Whether a group with these spans, whose newest member is the peak before place k, may take in that at place k. The rows of the
// two lie no further apart than those of the whole group.
pub fn joins_at(records: Records<'_>, k: usize, s: Spans, params: StitchParams) -> bool
    requires { (0 < k) × (k < records.count) }
    ensures { (ps : List PeakT) → Covers s (peak_at records.entry.words.now (k - 1) ∷ ps) → result ≡ may_join params (peak_at records.entry.words.now (k - 1) ∷ ps) (peak_at records.entry.words.now k) }
{
    s.widened(records.peak(k)).fit(params)
        && at(records, k, params, same_group)
        && at(records, k, params, frames_overlap)
        && at(records, k, params, scans_overlap)
        && at(records, k, params, apexes_inside)
}
