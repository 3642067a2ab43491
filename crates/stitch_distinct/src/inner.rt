// Identities that rise are distinct; others are sorted, and each is compared with the next.
ghost use Rattle.std.specs.Prelude.{◌≡◌, true, cond, ◌++◌, map, ℕ, ◌≤◌, ◌<◌, length, get_or, drop};
ghost use mathlib.Core.List.{Memᴰ};
ghost use Rattle.limits.specs.Limits.{max_list};
ghost use Rattle.stitch_peaks.specs.Records.{peaks_in};
ghost use Rattle.sort_digits.specs.Sorted.{up_to};
ghost use Rattle.stitch_distinct.specs.Distinct.{distinct_ids, by_identity, Told, neighbours_differ};

use stitch_keys::KeyRule;
use stitch_peaks::Records;

// Whether each identity is above the one before it.
fn rise(records: Records<'_>) -> bool
    ensures distinct { result ≡ true → distinct_ids (peaks_in records.entry) ≡ true }
    ensures order { result ≡ true → by_identity (peaks_in records.entry) ≡ up_to records.entry.count }
{
    (1..records.count).all(|k| records.id(k - 1) < records.id(k))
}

// Whether no two words that follow each other in an order are equal.
fn neighbours_differ(ids: &[u32], order: &[u32]) -> bool
    requires { (p : ℕ) → Memᴰ p order.now → p < length ids.now }
    ensures { result ≡ neighbours_differ (map (λ p. get_or ids.now p 0) order.now) }
{
    order
        .iter()
        .zip(order.iter().skip(1))
        .all(|(&p, &q)| ids[p as usize] != ids[q as usize])
}

// Whether the identities are distinct, with room to sort them. If so, `to` is filled with the first places in their order; else it stays
// as it is.
fn by_order(
    records: Records<'_>,
    to: &mut [u32],
    ids: &mut [u32],
    order: &mut [u32],
    spare: &mut [u32],
) -> bool
    requires { (records.count ≤ max_list) × (length to.old ≤ records.count) × (length order.old ≡ records.count) × (records.count ≤ length ids.old) × (records.count ≤ length spare.old) }
    ensures { Told (peaks_in records.entry) to.old to.new result }
{
    stitch_keys::inner::put_keys(records, KeyRule::Identity, ids);
    sort_rows::inner::order_rows(ids, 1, order, spare);
    if neighbours_differ(ids, order) {
        sort_digits::inner::copy(order, to);
        return true;
    }
    false
}

// The same, with room for N. It is not taken into its caller, so that lists that are shorter, or whose identities rise, do not pay for a
// frame of 768 KiB.
#[inline(never)]
fn with_room<const N: usize>(records: Records<'_>, to: &mut [u32]) -> bool
    requires { (records.count ≤ N) × (N ≤ max_list) × (length to.old ≤ records.count) }
    ensures { Told (peaks_in records.entry) to.old to.new result }
{
    let mut ids = [0u32; N];
    let mut order = [0u32; N];
    let mut spare = [0u32; N];
    by_order(
        records,
        to,
        &mut ids,
        &mut order[..records.count],
        &mut spare,
    )
}

// The same, with no room lent: where the identities rise, the places count up.
fn put_first(records: Records<'_>, to: &mut [u32]) -> bool
    requires { (records.count ≤ max_list) × (length to.old ≤ records.count) }
    ensures { Told (peaks_in records.entry) to.old to.new result }
{
    if rise(records) {
        sort_digits::inner::count_up(to);
        return true;
    }
    if records.count <= 1024 {
        return with_room::<1024>(records, to);
    }
    with_room::<65536>(records, to)
}

// Whether identities are distinct: whether number 8 does not apply to the records.
pub fn all_distinct(records: Records<'_>) -> bool
    requires { records.count ≤ max_list }
    ensures { result ≡ distinct_ids (peaks_in records.entry) }
{
    put_first(records, &mut [])
}

// Whether identities are distinct. If so, the places in the order of their identities are put to the front of `order`; else it stays as
// it is.
pub fn put_by_identity(records: Records<'_>, order: &mut [u32]) -> bool
    requires { (records.count ≤ max_list) × (records.count ≤ length order.old) }
    ensures distinct { result ≡ distinct_ids (peaks_in records.entry) }
    ensures order { order.new ≡ cond result (by_identity (peaks_in records.entry) ++ drop records.entry.count order.old) order.old }
{
    put_first(records, &mut order[..records.count])
}
