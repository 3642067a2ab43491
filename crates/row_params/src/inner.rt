// The checks of parameters, scan axes and identities.
ghost use Rattle.std.specs.Prelude.{◌≡◌, Bool, length};
ghost use Rattle.row_params.specs.Params.{most_peaks, lent_or_empty, sound_params, sound_bounds, sound_tof, enough_ids, all_up_to, all_neighbours, rising};

use super::{FrameBounds, ImDetectParams, RowPlace};
use limits::PeakId;

pub fn most_peaks(n: usize) -> usize
    ensures { result ≡ most_peaks n }
{
    n.saturating_sub(1) / 2
}

pub fn lent_or_empty(n: usize, table: &[f32]) -> bool
    ensures { result ≡ lent_or_empty n table.now }
{
    table.is_empty() || table.len() == n
}

pub fn enough_ids(first: PeakId, peaks: usize) -> bool
    ensures { result ≡ enough_ids first peaks }
{
    peaks <= limits::IDENTITIES && (first as usize) + peaks <= limits::IDENTITIES
}

#[tactic(auto, unfolding(crate::specs::Params::all_up_to))]
pub fn all_up_to(limit: u32, axis: &[u32]) -> bool
    ensures { result ≡ all_up_to limit axis.now }
{
    axis.iter().fold(true, |all, &s| all & (s <= limit))
}

// Whether a test holds of each value and the next. All are looked at, many at once.
pub fn all_neighbours<T: Copy, F: Fn(T, T) -> bool>(list: &[T], test: F) -> bool
    requires { F.IsAlwaysCallable test }
    ensures { (says : T → T → Bool) → ((x y : T) (r : Bool) → F.post test x y r → r ≡ says x y) → result ≡ all_neighbours says list.now }
{
    let Some((_, rest)) = list.split_first() else {
        return true;
    };
    list.iter()
        .zip(rest)
        .fold(true, |all, (&x, &next)| all & test(x, next))
}

// Whether each number is above the one before it.
pub fn is_rising(axis: &[u32]) -> bool
    ensures { result ≡ rising axis.now }
{
    all_neighbours(axis, |last, s| last < s)
}
