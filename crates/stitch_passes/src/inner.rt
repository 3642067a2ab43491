// Two passes and the owner column.
ghost use Rattle.std.specs.Prelude.{◌≡◌, ℕ, ◌≤◌, ◌<◌, ◌+◌, ◌*◌, length, get_or, take, drop, true};
ghost use mathlib.Core.List.{◌++◌, map, Memᴰ};
ghost use Rattle.row_record.specs.Record.{size};
ghost use Rattle.stitch_peaks.specs.PeakList.{peaks_of};
ghost use Rattle.stitch_peaks.specs.Records.{peaks_in};
ghost use Rattle.sort_digits.specs.Sorted.{up_to};
ghost use Rattle.stitch_keys.specs.declared.KeyRule.TheVariants.{Identity};
ghost use Rattle.stitch_keys.specs.Keys.{width_of};
ghost use Rattle.stitch_grouping.specs.Grouping.{pass_order};
ghost use Rattle.stitch_passes.specs.Lists.{SameLists, SameLengths};
ghost use Rattle.stitch_passes.specs.Steps.{records_at, rest_order, Passed, Within, Stitched};

use super::Lent;
use row_record::ImPeak1D;
use stitch_keys::KeyRule;
use stitch_matching::StitchParams;
use stitch_peaks::Records;

// Copies the record at place p of one list to place k of another.
fn copy_at(list: &[u32], p: usize, sorted: &mut [u32], k: usize)
    requires { (p * size + size ≤ length list.now) × (k * size + size ≤ length sorted.old) }
    ensures { sorted.new ≡ take (k * size) sorted.old
        ++ (take size (drop (p * size) list.now) ++ drop (k * size + size) sorted.old) }
{
    let from = p * ImPeak1D::WORDS;
    let to = k * ImPeak1D::WORDS;
    sorted[to..to + ImPeak1D::WORDS].copy_from_slice(&list[from..from + ImPeak1D::WORDS]);
}

// Copies the records at places to the front of `sorted`, in the order of the places.
fn gather(list: &[u32], order: &[u32], sorted: &mut [u32])
    requires { Within list.now order.now × (length order.now * size ≤ length sorted.old) }
    ensures { sorted.new ≡ records_at list.now order.now ++ drop (length order.now * size) sorted.old }
{
    // By number, as `stitch_keys` writes its table: of what is written through chunks the proof knows its length alone.
    for (i, &place) in order.iter().enumerate() {
        copy_at(list, place as usize, sorted, i);
    }
}

// Whether places stand in their own order: 0, 1, 2 and so on.
fn stands(order: &[u32]) -> bool
    ensures { result ≡ true → order.now ≡ up_to (length order.now) }
{
    order
        .iter()
        .enumerate()
        .all(|(i, &place)| place as usize == i)
}

// One pass over as many records of `list` as `order` has places: the merged peaks to the front of `out`, and for each place the number of
// its group to the front of `column`. `keys` holds the keys first, and then the records in their order, unless they stand so in `list`.
// `order` has the places in the order of the words of their keys from `words` on. Returns how many groups there are. The two passes use
// other lists of the six that are lent, so that no struct has these four. Rule and parameters are two: by the rule peaks are sorted, which
// needs the parameters in the first pass alone, and by the parameters they are joined in both.
fn pass(
    list: &[u32],
    rule: KeyRule,
    params: StitchParams,
    order: &mut [u32],
    column: &mut [u32],
    keys: &mut [u32],
    out: &mut [u32],
    words: usize,
) -> usize
    requires { (length order.old * size ≤ length list.now) × (length order.old ≤ length column.old)
        × (length order.old * size ≤ length keys.old) × (length order.old * size ≤ length out.old) × (length order.old ≤ 4294967296)
        × (words ≤ width_of rule) × (order.old ≡ rest_order rule words (peaks_of list.now (length order.old))) }
    ensures { Passed rule params (peaks_of list.now (length order.old)) column.old keys.old out.old result column.new keys.new out.new }
{
    let records = Records {
        words: list,
        count: order.len(),
    };
    stitch_keys::inner::put_keys(records, rule, keys);
    sort_leading::inner::order_rows(keys, rule.width(), words, order, column);
    if stands(order) {
        return stitch_grouping::inner::put_groups(list, order, rule, params, out, column);
    }
    gather(list, order, keys);
    stitch_grouping::inner::put_groups(keys, order, rule, params, out, column)
}

// The same, whatever `order` has.
fn pass_over(
    list: &[u32],
    rule: KeyRule,
    params: StitchParams,
    order: &mut [u32],
    column: &mut [u32],
    keys: &mut [u32],
    out: &mut [u32],
) -> usize
    requires { (length order.old * size ≤ length list.now) × (length order.old ≤ length column.old)
        × (length order.old * size ≤ length keys.old) × (length order.old * size ≤ length out.old) × (length order.old ≤ 4294967296) }
    ensures { Passed rule params (peaks_of list.now (length order.old)) column.old keys.old out.old result column.new keys.new out.new }
{
    sort_digits::inner::count_up(order);
    pass(list, rule, params, order, column, keys, out, rule.width())
}

// Puts in the place of each number what `numbers` has there.
fn hand_on(numbers: &[u32], owners: &mut [u32])
    requires { (k : ℕ) → k < length owners.old → get_or owners.old k 0 < length numbers.now }
    ensures { owners.new ≡ map (λ k. get_or numbers.now k 0) owners.old }
{
    for owner in owners.iter_mut() {
        *owner = numbers[*owner as usize];
    }
}

// Stitches records: the stitched ones at the front of `out`, and for each record the place of its stitched one in `owners`. Returns how
// many there are. `order` has the places in the order of their identities. `order` and `groups` are used up to as many places, `keys` and
// `merged` up to as many records.
pub fn stitch_peaks(records: Records<'_>, params: StitchParams, lists: &mut Lent<'_>) -> usize
    requires { (records.count ≤ 4294967296) × (records.count * size ≤ length lists.old.out.now) × (records.count ≤ length lists.old.owners.now)
        × (records.count ≤ length lists.old.order.now) × (records.count ≤ length lists.old.groups.now) × (records.count * size ≤ length lists.old.keys.now) × (records.count * size ≤ length lists.old.merged.now)
        × (take records.count lists.old.order.now ≡ pass_order Identity (peaks_in records)) }
    ensures stitched { Stitched params (peaks_in records.entry) lists.old.out.now lists.old.owners.now result lists.new.out.now lists.new.owners.now }
    ensures order { drop records.entry.count lists.new.order.now ≡ drop records.entry.count lists.old.order.now }
    ensures groups { drop records.entry.count lists.new.groups.now ≡ drop records.entry.count lists.old.groups.now }
    ensures keys { drop (records.entry.count * size) lists.new.keys.now ≡ drop (records.entry.count * size) lists.old.keys.now }
    ensures merged { drop (records.entry.count * size) lists.new.merged.now ≡ drop (records.entry.count * size) lists.old.merged.now }
    ensures same { SameLists lists.old lists.new }
    ensures lengths { SameLengths lists.old lists.new }
{
    let n = records.count;
    let order = &mut *lists.order;
    let owners = &mut *lists.owners;
    let groups = &mut *lists.groups;
    let merged = &mut *lists.merged;
    // a key of the first pass has eight words; by the last, the identity, the places are in order
    let m = pass(
        records.words,
        KeyRule::First(params),
        params,
        &mut order[..n],
        owners,
        lists.keys,
        merged,
        7,
    );
    let found = pass_over(
        merged,
        KeyRule::Second,
        params,
        &mut order[..m],
        groups,
        lists.keys,
        lists.out,
    );
    hand_on(groups, &mut owners[..n]);
    found
}
