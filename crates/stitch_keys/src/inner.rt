// The table of keys: a row of words for each of the first records of a list.
ghost use Rattle.std.specs.Prelude.{◌≡◌, [], ◌∷◌, ◌++◌, ◌≤◌, ◌<◌, ◌+◌, ◌*◌, ◌/◌, eqb, length, drop};
ghost use Rattle.stitch_peaks.specs.Records.{peaks_in};
ghost use Rattle.stitch_keys.specs.declared.KeyRule.TheVariants.{First, Second, Identity};
ghost use Rattle.stitch_keys.specs.Keys.{group_in, group_there, group_number, bucket_of, is_same_bucket, key_of, width_of, key_table};

use super::KeyRule;
use row_record::ImPeak1D;
use stitch_matching::StitchParams;
use stitch_peaks::Records;

// The bucket of a peak in the first pass: the window group, which is missing where crossing is allowed; which interval of scans and which
// interval of rows.
#[derive(Clone, Copy, Default)]
pub struct Bucket {
    pub group: Option<u32>,
    pub scans: u32,
    pub rows: u32,
}

// The window group, taken for missing where crossing is allowed.
#[tactic(auto, unfolding(stitch_matching::specs::Matching::group_of))]
fn group_in(p: ImPeak1D, params: StitchParams) -> Option<u32>
    ensures { result ≡ group_in params p }
{
    if params.allow_cross_groups {
        None
    } else {
        p.group()
    }
}

// A window group as two words: whether it is there, 1 or 0, and its number, 0 for a missing one.
#[tactic(auto, unfolding(crate::specs::Keys::group_there, crate::specs::Keys::group_number))]
fn group_words(group: Option<u32>) -> [u32; 2]
    ensures { result ≡ group_there group ∷ group_number group ∷ [] }
{
    [u32::from(group.is_some()), group.unwrap_or(0)]
}

// Which interval a row falls into, where each has one row more than the delta.
fn rows_in(tof_row: u32, delta: u32) -> u32
    ensures { result ≡ tof_row / (delta + 1) }
{
    (u64::from(tof_row) / (u64::from(delta) + 1)) as u32
}

// Whether x falls into the k-th interval, where each has `width` numbers: no division is needed to see that.
#[tactic(auto, using(crate::proofs::Laws::from_start))]
fn falls_into(k: u32, width: u64, x: u32) -> bool
    requires { (0 < width) × (width ≤ 4294967296) }
    ensures { result ≡ eqb k (x / width) }
{
    let start = u64::from(k) * width;
    let x = u64::from(x);
    start <= x && x - start < width
}

impl Bucket {
    #[tactic(auto, unfolding(crate::specs::Keys::bucket_of))]
    pub fn of(p: ImPeak1D, params: StitchParams) -> Bucket
        ensures { result ≡ bucket_of params p }
    {
        Bucket {
            group: group_in(p, params),
            scans: p.scan / params.max_scan_delta.max(1),
            rows: rows_in(p.tof_row, params.max_tof_row_delta),
        }
    }

    // Whether it is the bucket of a peak.
    #[tactic(auto, unfolding(crate::specs::Keys::bucket_of))]
    pub fn has(self, p: ImPeak1D, params: StitchParams) -> bool
        ensures { result ≡ is_same_bucket self (bucket_of params p) }
    {
        let scans = u64::from(params.max_scan_delta.max(1));
        let rows = u64::from(params.max_tof_row_delta) + 1;
        (self.group == group_in(p, params))
            & falls_into(self.scans, scans, p.scan)
            & falls_into(self.rows, rows, p.tof_row)
    }
}

// Writes the key of the first pass to the front of `out`.
fn put_first_key(out: &mut [u32], p: ImPeak1D, params: StitchParams)
    requires { 8 ≤ length out.old }
    ensures { out.new ≡ key_of (First params) p ++ drop 8 out.old }
{
    let b = Bucket::of(p, params);
    let [there, number] = group_words(b.group);
    let key = [
        there, number, b.scans, b.rows, p.scan, p.rt_lo, p.tof_row, p.id,
    ];
    out[..8].copy_from_slice(&key);
}

// That of the second pass.
fn put_second_key(out: &mut [u32], p: ImPeak1D)
    requires { 6 ≤ length out.old }
    ensures { out.new ≡ key_of Second p ++ drop 6 out.old }
{
    let [there, number] = group_words(p.group());
    let key = [there, number, p.tof_row, p.scan, p.rt_lo, p.id];
    out[..6].copy_from_slice(&key);
}

// The identity alone.
#[tactic(auto, unfolding(crate::specs::Keys::key_of))]
fn put_id_key(out: &mut [u32], p: ImPeak1D)
    requires { 1 ≤ length out.old }
    ensures { out.new ≡ key_of Identity p ++ drop 1 out.old }
{
    out[0] = p.id;
}

impl KeyRule {
    // How many words a key has.
    #[tactic(auto, unfolding(crate::specs::Keys::width_of))]
    pub fn width(self) -> usize
        ensures { result ≡ width_of self }
    {
        match self {
            KeyRule::First(_) => 8,
            KeyRule::Second => 6,
            KeyRule::Identity => 1,
        }
    }

    // Writes the key of a peak to the front of `out`.
    #[tactic(auto, unfolding(crate::specs::Keys::width_of))]
    fn put(self, p: ImPeak1D, out: &mut [u32])
        requires { width_of self ≤ length out.old }
        ensures { out.new ≡ key_of self p ++ drop (width_of self) out.old }
    {
        match self {
            KeyRule::First(params) => put_first_key(out, p, params),
            KeyRule::Second => put_second_key(out, p),
            KeyRule::Identity => put_id_key(out, p),
        }
    }
}

// Writes the keys of records to the front of `table`.
pub fn put_keys(records: Records<'_>, rule: KeyRule, table: &mut [u32])
    requires { records.count * width_of rule ≤ length table.old }
    ensures { table.new ≡ key_table rule (peaks_in records.entry) ++ drop (records.entry.count * width_of rule) table.old }
{
    let width = rule.width();
    // By place: of what is written through chunks the proof knows its length alone.
    for k in 0..records.count {
        let at = k * width;
        rule.put(records.peak(k), &mut table[at..]);
    }
}
