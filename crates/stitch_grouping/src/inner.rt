// One walk over peaks in their order, group by group: where a group ends is found first, from what the tests look at alone; then its
// peaks, which are near at hand, are merged.
ghost use Rattle.std.specs.Prelude.{◌≡◌, List, ℕ, ◌≤◌, ◌<◌, ◌+◌, ◌*◌, ◌/◌, length};
ghost use Rattle.row_record.specs.Record.{size, with_peak};
ghost use Rattle.row_record.specs.declared.ImPeak1D.{ImPeak1D as PeakT};
ghost use Rattle.stitch_keys.specs.Keys.{is_same_bucket};
ghost use Rattle.stitch_merging.specs.Merging.{merged as mergedPeak};
ghost use Rattle.stitch_merging.specs.Walk.{Holds};
ghost use Rattle.stitch_grouping.specs.Grouping.{bucket_by};
ghost use Rattle.stitch_peaks.specs.PeakList.{peaks_of};
ghost use Rattle.stitch_grouping.specs.Walk.{Cut, Gathered, Columned, numbered, Grouped};

use row_record::ImPeak1D;
use stitch_keys::KeyRule;
use stitch_keys::inner::Bucket;
use stitch_matching::StitchParams;
use stitch_matching::inner::Spans;
use stitch_merging::inner::Merging;
use stitch_peaks::Records;

// The bucket of a peak; a pass by another rule than the first has one for all.
#[tactic(auto, unfolding(crate::specs::Grouping::bucket_by))]
fn bucket_by(p: ImPeak1D, rule: KeyRule) -> Bucket
    ensures { result ≡ bucket_by rule p }
{
    match rule {
        KeyRule::First(params) => Bucket::of(p, params),
        KeyRule::Second | KeyRule::Identity => Bucket::default(),
    }
}

// Whether b, a bucket of the pass, is that of a peak.
#[tactic(auto, unfolding(crate::specs::Grouping::bucket_by))]
fn is_of_bucket(b: Bucket, p: ImPeak1D, rule: KeyRule) -> bool
    ensures { (q : PeakT) → b ≡ bucket_by rule q → result ≡ is_same_bucket b (bucket_by rule p) }
{
    match rule {
        KeyRule::First(params) => b.has(p, params),
        KeyRule::Second | KeyRule::Identity => true,
    }
}

// Where the group ends that starts at place i.
fn group_end(sorted: Records<'_>, i: usize, rule: KeyRule, params: StitchParams) -> usize
    requires { i < sorted.count }
    ensures { (i < result) × (result ≤ sorted.entry.count) × ((ps : List PeakT) (order : List ℕ) → length order ≡ sorted.entry.count → Gathered ps sorted.entry.words.now order → Cut rule params ps order i result) }
{
    let first = sorted.peak(i);
    let bucket = bucket_by(first, rule);
    let mut spans = Spans::of_one(first);
    // the place at which a test fails is the answer, and a test looks at a place and the one before it
    for k in i + 1..sorted.count {
        if !is_of_bucket(bucket, sorted.peak(k), rule) {
            return k;
        }
        if !stitch_matching::inner::joins_at(sorted, k, spans, params) {
            return k;
        }
        spans = spans.widened(sorted.peak(k));
    }
    sorted.count
}

// What the merge of the peaks of some records keeps of them; there is one at least.
fn gather_part(records: &[u32]) -> Merging
    requires { size ≤ length records.now }
    ensures { Holds result (peaks_of records.now (length records.now / size)) }
{
    let (first, rest) = records.split_at(ImPeak1D::WORDS);
    let mut m = Merging::start(row_record::inner::peak_at(first, 0));
    for words in rest.chunks_exact(ImPeak1D::WORDS) {
        m = m.join(row_record::inner::peak_at(words, 0));
    }
    m
}

// Writes the merged record of a group to place k.
fn put_merged(merged: &mut [u32], k: usize, m: Merging)
    requires { k * size + size ≤ length merged.old }
    ensures { (ps : List PeakT) → Holds m ps → merged.new ≡ with_peak merged.old k (mergedPeak ps) }
{
    row_record::inner::put_peak(merged, k, m.finish());
}

// Writes a group's number to the places of its members.
fn put_number(places: &[u32], number: u32, column: &mut [u32])
    requires { Columned column.old places.now }
    ensures { column.new ≡ numbered number places.now column.old }
{
    for &p in places {
        column[p as usize] = number;
    }
}

// Cuts the peaks whose records stand in `sorted`, and whose places are in `order`, into groups. Writes the record of each merged
// group to the front of `merged`, and into `column`, at each member's place, its group's number. Returns how many groups there are.
pub fn put_groups(
    sorted: &[u32],
    order: &[u32],
    rule: KeyRule,
    params: StitchParams,
    merged: &mut [u32],
    column: &mut [u32],
) -> usize
    requires { (length order.now * size ≤ length sorted.now) × Columned column.old order.now
        × (length order.now * size ≤ length merged.old) × (length order.now ≤ 4294967296) }
    ensures { (ps : List PeakT) → Gathered ps sorted.now order.now
        → Grouped rule params ps order.now merged.old column.old result merged.new column.new }
{
    let records = Records {
        words: sorted,
        count: order.len(),
    };
    let mut number = 0usize;
    let mut i = 0usize;
    // a step goes over a whole group, whose end is found on the way: no range or iterator has it beforehand
    while i < records.count {
        let end = group_end(records, i, rule, params);
        put_number(&order[i..end], number as u32, column);
        let part = &sorted[i * ImPeak1D::WORDS..end * ImPeak1D::WORDS];
        put_merged(merged, number, gather_part(part));
        number += 1;
        i = end;
    }
    number
}
