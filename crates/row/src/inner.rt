// The records of the peaks of a row that the caller has checked.
ghost use Rattle.std.specs.Prelude.{◌≡◌, true, List, ◌++◌, ℕ, ◌≤◌, ◌<◌, ◌+◌, ◌*◌, length, drop, Float};
ghost use Rattle.limits.specs.Limits.{any_number, exact_index, max_samples};
ghost use Rattle.numeric.specs.Numeric.{all_in_range};
ghost use Rattle.row_params.specs.Params.{most_peaks};
ghost use Rattle.row_search.specs.SameLists.{SameLists};
ghost use Rattle.row_search.specs.Qualifying.{kept};
ghost use Rattle.row_search.specs.Found.{Searchable, Standing};
ghost use Rattle.row_search.specs.Room.{Sizes};
ghost use Rattle.row.specs.Row.{on_axes, subscan, scan_at, mobility_of, peak_of};
ghost use Rattle.row.specs.Steps.{Inside, Writable, Numbers, RecordsPut};
ghost use Rattle.row.specs.Written.{as_words};

use super::column::Column;
use super::written::{AsWords, Written};
use row_params::{FrameBounds, ImDetectParams, RowPlace};
use row_record::{ImPeak1D, PeakId};
use row_search::inner::Measured;
use row_search::scratch::{Arrays, Scratch};

fn scan_at<S: Column<u32>>(axis: S, k: usize) -> u32
    requires { 0 < length (S.items axis) }
    ensures { result ≡ scan_at (S.items axis) k }
{
    axis.item(k.min(axis.count() - 1))
}

// How far an apex lies from its sample, as apex tells it.
#[tactic(auto, unfolding(crate::specs::Row::subscan, row_apex::specs::Apex::offset_of))]
fn subscan_of(y: &[f32], i: usize) -> f32
    requires { (0 < i) × (i + 1 < length y.now) }
    ensures { result ≡ subscan y.now i }
{
    row_apex::inner::offset_of(y, i)
}

// The mobility at a sample, where there are mobilities.
fn mobility_of<M: Column<f32>>(mobility: M, i: usize) -> Option<f32>
    ensures { result ≡ mobility_of (M.items mobility) i }
{
    let count = mobility.count();
    let here = if i < count { mobility.item(i) } else { 0.0 };
    (count > 0).then_some(here)
}

// Where an apex and its two ends lie on the scan axis, and its mobility, if it has one.
#[derive(Clone, Copy)]
pub struct OnAxes {
    pub scan: u32,
    pub left: u32,
    pub right: u32,
    pub mobility: Option<f32>,
}

fn on_axes<M: Column<f32>, S: Column<u32>>(mobility: M, axis: S, a: Measured) -> OnAxes
    requires { 0 < length (S.items axis) }
    ensures { result ≡ on_axes (M.items mobility) (S.items axis) a }
{
    OnAxes {
        scan: scan_at(axis, a.index),
        left: scan_at(axis, a.left as usize),
        right: scan_at(axis, a.right as usize),
        mobility: mobility_of(mobility, a.index),
    }
}

// A row whose peaks are listed: the samples that are searched, the readings, where they lie, a mobility for each sample or none, and a
// scan for each. The parameters and the first identity, which go with it through five functions, are no fields: `peak_on` and `peak_of`
// take a peak's own identity and no parameters, and table_peak_lines makes a row for `peak_on` alone.
#[derive(Clone, Copy)]
pub struct Row<'a, M, S> {
    pub y: &'a [f32],
    pub z: &'a [f32],
    pub place: RowPlace,
    pub bounds: FrameBounds,
    pub mobility: M,
    pub axis: S,
}

impl<'a, M, S> Row<'a, M, S> {
    // The peak of an apex that lies so on some axes, which need not be those of the row.
    pub fn peak_on(&self, on: OnAxes, a: Measured, id: PeakId) -> ImPeak1D
        requires { (0 < a.index) × (a.index + 1 < length self.now.y.now) × (length self.now.z.now ≡ length self.now.y.now) × (length self.now.y.now ≤ exact_index) }
        ensures { (mobility : List Float) (axis : List ℕ) → Inside self.now.y.now self.now.z.now axis a → on ≡ on_axes mobility axis a → result ≡ peak_of self.now.place self.now.bounds mobility axis self.now.y.now self.now.z.now a.index id }
    {
        let y = self.y;
        let z = self.z;
        let i = a.index;
        let group = self.bounds.window_group;
        ImPeak1D {
            tof_row: self.place.tof_row,
            tof_center: self.place.tof_center,
            tof_lo: self.place.tof_lo,
            tof_hi: self.place.tof_hi,
            rt_lo: self.bounds.rt_lo,
            rt_hi: self.bounds.rt_hi,
            frame_id_lo: self.bounds.frame_id_lo,
            frame_id_hi: self.bounds.frame_id_hi,
            flags: u32::from(group.is_some()) * ImPeak1D::HAS_GROUP
                + u32::from(on.mobility.is_some()) * ImPeak1D::HAS_MOBILITY,
            window_group: group.unwrap_or(0),
            scan: i as u32,
            left: a.left,
            right: a.right,
            scan_abs: on.scan,
            left_abs: on.left,
            right_abs: on.right,
            scan_sigma: 0.0,
            mobility: on.mobility.unwrap_or(0.0),
            apex_smoothed: y[i],
            apex_raw: z[i],
            prominence: a.prominence,
            left_x: a.left_x,
            right_x: a.right_x,
            width_scans: a.width,
            area_raw: a.area,
            subscan: subscan_of(y, i),
            id,
        }
    }
}

impl<'a, M: Column<f32>, S: Column<u32>> Row<'a, M, S> {
    // The peak of an apex.
    pub fn peak_of(&self, a: Measured, id: PeakId) -> ImPeak1D
        requires { Inside self.now.y.now self.now.z.now (S.items self.now.axis) a }
        ensures { result ≡ peak_of self.now.place self.now.bounds (M.items self.now.mobility) (S.items self.now.axis) self.now.y.now self.now.z.now a.index id }
    {
        let on = on_axes(self.mobility, self.axis, a);
        self.peak_on(on, a, id)
    }

    // Writes the records of the n apexes that stand in `found` to the front of `out`, the oldest first. By place: j is the place of the
    // apex in `found`, that of its record in `out`, and how far its identity lies behind the first. `found` and n are no `Apexes`
    // as in rt_listing, where six functions take both: here one does, from the search that told them.
    pub fn put_peaks<W: Written>(
        &self,
        found: &[u32],
        n: usize,
        first: PeakId,
        out: &mut [W::Place],
    )
        requires room { (room : ℕ) × (room * W.form.unit ≤ length out.old) × Writable self.now.y.now self.now.z.now (S.items self.now.axis) first room }
        requires apexes { (n ≤ most_peaks (length self.now.y.now)) × ((ks : List ℕ) × Standing self.now.y.now self.now.z.now found.now n ks) }
        ensures { (ks : List ℕ) → Standing self.now.y.now self.now.z.now found.now n ks → RecordsPut W.form self.now.place self.now.bounds (M.items self.now.mobility) (S.items self.now.axis) self.now.y.now self.now.z.now first out.old out.new n ks }
    {
        for j in 0..n {
            let a = row_search::inner::measured_at(found, j);
            W::put_record(out, j, self.peak_of(a, first + j as PeakId));
        }
    }
}

// A row whose axes stand in memory as they are.
pub type WordRow<'a> = Row<'a, &'a [f32], &'a [u32]>;

// Writes the records of the listed peaks of a row that reaches the floor to the front of `out` and answers how many there are. The
// lists for turns, bases and what is found are scratch.
pub fn list_peaks(
    row: &WordRow<'_>,
    p: ImDetectParams,
    first: PeakId,
    scratch: &mut Scratch<'_>,
    out: &mut [u32],
) -> usize
    requires { Writable row.now.y.now row.now.z.now row.now.axis.now first (length out.old) × Searchable p row.now.y.now row.now.z.now scratch.old.samples }
    ensures listed { RecordsPut as_words row.now.place row.now.bounds row.now.mobility.now row.now.axis.now row.now.y.now row.now.z.now first out.old out.new result (kept p row.now.y.now row.now.z.now) }
    ensures samples { scratch.new.samples ≡ scratch.old.samples }
    ensures lists { SameLists scratch.old scratch.new }
{
    let n = row_search::inner::find_apexes(row.y, row.z, p, scratch);
    row.put_peaks::<AsWords>(scratch.found, n, first, out);
    n
}

// The same with scratch of its own, for a row of at most N samples. It is no part of its callers, so that each has the stack of one size
// alone. There is no heap, so the lists stand in the frame of this function.
#[inline(never)]
fn list_in<const N: usize, const B: usize>(
    row: &WordRow<'_>,
    p: ImDetectParams,
    first: PeakId,
    out: &mut [u32],
) -> usize
    requires row { Writable row.now.y.now row.now.z.now row.now.axis.now first (length out.old) × Numbers p row.now.y.now row.now.z.now × (length row.now.y.now ≤ N) }
    requires sizes { Sizes N B }
    ensures { RecordsPut as_words row.now.place row.now.bounds row.now.mobility.now row.now.axis.now row.now.y.now row.now.z.now first out.old out.new result (kept p row.now.y.now row.now.z.now) }
{
    let mut lists = Arrays::<N, B>::new();
    list_peaks(row, p, first, &mut lists.lend(N), out)
}

// The same for any row of at most 16,384 samples: one that does not reach the floor has no peaks.
pub fn find_im_peaks_row(
    row: &WordRow<'_>,
    p: ImDetectParams,
    first: PeakId,
    out: &mut [u32],
) -> usize
    requires { Writable row.now.y.now row.now.z.now row.now.axis.now first (length out.old) × (all_in_range any_number row.now.y.now ≡ true) × (length row.now.y.now ≤ max_samples) }
    ensures { RecordsPut as_words row.now.place row.now.bounds row.now.mobility.now row.now.axis.now row.now.y.now row.now.z.now first out.old out.new result (kept p row.now.y.now row.now.z.now) }
{
    if !row_search::inner::reaches_floor(row.z, p.min_prom) {
        return 0;
    }
    if row.y.len() <= 1024 {
        return list_in::<1024, 800>(row, p, first, out);
    }
    list_in::<16384, 8480>(row, p, first, out)
}
