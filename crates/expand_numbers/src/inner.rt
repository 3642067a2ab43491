// The parts of what a call of expansion is asked. Each function takes any lists and numbers.
ghost use Rattle.std.specs.Prelude.{◌≡◌, ◌≤◌, ◌+◌, ◌*◌, min, leb, length};
ghost use Rattle.expand_one.specs.Steps.{most};
ghost use Rattle.expand_numbers.specs.ExpandNumber.{sums_to, all_weights, paired_axes, sound_values, enough_room, enough_scratch};

use row_record::PeakId;
use rt_params::RtExpandParams;
use rt_record::RtPeak1D;

// The retention peaks that a mobility peak can have over n frames.
pub fn most_of(n: usize) -> usize
    ensures { result ≡ most n }
{
    row_params::inner::most_peaks(n).max(1)
}

// Whether there is one frame number and one time for each frame of an index with so many starts.
pub fn paired_axes(starts: usize, ids: usize, times: usize) -> bool
    ensures { result ≡ paired_axes starts ids times }
{
    (starts.checked_sub(ids) == Some(1)) & (times == ids)
}

// Whether lengths add up to n. A loop: by `try_fold` and `checked_sub` the proof does not close.
pub fn sums_to(lengths: &[u32], n: usize) -> bool
    ensures { result ≡ sums_to lengths.now n }
{
    let mut left = n;
    for &k in lengths {
        if left < k as usize {
            return false;
        }
        left -= k as usize;
    }
    left == 0
}

// Whether each of the lists of weights that are joined, with these lengths, is sound. A loop: a `fold` would hand on from list to list both
// the answer so far and the weights that are left, and take its answer out of the pair.
pub fn all_weights(lengths: &[u32], weights: &[f32]) -> bool
    ensures { result ≡ all_weights lengths.now weights.now }
{
    let mut all = true;
    let mut rest = weights;
    for &k in lengths {
        let (list, behind) = rest.split_at((k as usize).min(rest.len()));
        all &= row_smoothing::inner::sound_weights(list);
        rest = behind;
    }
    all
}

// Whether parameters and times are in range and n times m identities can follow the first.
#[tactic(auto, unfolding(crate::specs::ExpandNumber::sound_values))]
pub fn sound_values(
    e: RtExpandParams,
    step: u32,
    times: &[f32],
    first: PeakId,
    n: usize,
    m: usize,
) -> bool
    ensures { result ≡ sound_values e step times.now first n m }
{
    e.is_sound()
        & tof_scale::inner::sound_step(step)
        & numeric::inner::all_in_range(times, limits::MAX_SECONDS)
        & frames_index::numbers::fits_times(n, m, limits::IDENTITIES - first as usize)
}

// Whether `room` words hold n times m records.
#[tactic(auto, unfolding(crate::specs::ExpandNumber::enough_room))]
pub fn enough_room(n: usize, m: usize, room: usize) -> bool
    ensures { result ≡ enough_room n m room }
{
    frames_index::numbers::fits_times(n, m, room / RtPeak1D::WORDS)
}

// Whether scratch has a place for each of n frames.
pub fn enough_scratch(n: usize, raw: usize, smooth: usize, order: usize) -> bool
    ensures { result ≡ enough_scratch n raw smooth order }
{
    (n <= raw) & (n <= smooth) & (n <= order)
}
