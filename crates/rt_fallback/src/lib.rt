// The one retention peak of a trace that is not searched: about its highest reading.
#![tactic(auto)]

pub mod inner;

ghost use Rattle.std.specs.Prelude.{◌≡◌, ◌≤◌, length};
ghost use Rattle.refusal.specs.Answers.{answer_by};
ghost use Rattle.refusal.specs.Numbered.{number_in, says};
ghost use Rattle.rt_record.specs.RtRecord.{rt_size};
ghost use Rattle.rt_fallback.specs.FallbackNumber.{fallback_lengths, fallback_sizes, fallback_values, fallback_number};
ghost use Rattle.rt_fallback.specs.FallbackNumber.{count_of, with_fallback, fallback_count, fallback_list};

use refusal::Refusal;
use row_record::ImPeak1D;
use rt_record::{PeakId, RtPeak1D};

// The parts of the numbers 1, 2 and 4.
#[tactic(auto, unfolding(crate::specs::FallbackNumber::fallback_lengths))]
fn sound_lengths(trace: &[f32], times: &[f32], peak: &[u32]) -> bool
    ensures { result ≡ fallback_lengths trace.now times.now peak.now }
{
    (peak.len() == ImPeak1D::WORDS) & (trace.len() <= times.len())
}

#[tactic(auto, unfolding(crate::specs::FallbackNumber::fallback_sizes))]
fn sound_sizes(trace: &[f32], ids: &[u32], times: &[f32]) -> bool
    ensures { result ≡ fallback_sizes trace.now ids.now times.now }
{
    (trace.len() <= limits::MAX_FRAMES)
        & (ids.len() <= limits::MAX_FRAMES)
        & (times.len() <= limits::MAX_FRAMES)
}

#[tactic(auto, unfolding(crate::specs::FallbackNumber::fallback_values))]
fn sound_values(times: &[f32], frac: f32) -> bool
    ensures { result ≡ fallback_values times.now frac }
{
    numeric::in_range(frac, rt_params::MAX_FRACTION)
        & numeric::inner::all_in_range(times, limits::MAX_SECONDS)
}

// Refuses with the lowest number that applies; `room` is the length of the lent list.
#[tactic(auto, unfolding(crate::specs::FallbackNumber::fallback_number, crate::specs::FallbackNumber::fallback_axes, refusal::specs::Refusal::first_of))]
fn check(
    trace: &[f32],
    ids: &[u32],
    times: &[f32],
    peak: &[u32],
    frac: f32,
    room: usize,
) -> Result<(), Refusal>
    ensures { number_in result ≡ fallback_number trace.now ids.now times.now peak.now frac room }
{
    if !sound_lengths(trace, times, peak) {
        return Err(Refusal::Lengths);
    }
    if !sound_sizes(trace, ids, times) {
        return Err(Refusal::Size);
    }
    if !numeric::inner::all_in_range(trace, limits::MAX_READING) {
        return Err(Refusal::Reading);
    }
    if !sound_values(times, frac) {
        return Err(Refusal::Value);
    }
    if !rt_time::inner::rising_axes(ids, times) {
        return Err(Refusal::Order);
    }
    if !row_record::inner::is_sound(row_record::inner::peak_at(peak, 0)) {
        return Err(Refusal::Record);
    }
    if room < RtPeak1D::WORDS {
        return Err(Refusal::Room);
    }
    Ok(())
}

// Writes a peak, if there is one, to the front of `out`, and answers how many there are. A `match`: by `map_or` the write to `out` would
// stand in a closure that holds the lent list.
fn put_answer(out: &mut [u32], f: Option<RtPeak1D>) -> usize
    requires { rt_size ≤ length out.old }
    ensures count { result ≡ count_of f }
    ensures words { out.new ≡ with_fallback out.old f }
{
    match f {
        Some(p) => {
            rt_record::inner::put_rt_peak(out, 0, p);
            1
        }
        None => 0,
    }
}

// Writes the record of a trace's peak, if it has one, to the front of `out` and answers how many it has, or refuses it and leaves
// `out` as it is. `peak` is the record of the mobility peak that the trace belongs to; an empty list of frame numbers means that there
// are none, and the peak's own are taken. The lists stand one by one: each goes to `check` and to the step once, with the words of a peak
// to the one and the peak to the other.
pub fn fallback_rt_peak_from_trace(
    trace: &[f32],
    ids: &[u32],
    times: &[f32],
    peak: &[u32],
    frac: f32,
    first: PeakId,
    out: &mut [u32],
) -> Result<usize, Refusal>
    ensures answer { says result ≡ answer_by (fallback_number trace.now ids.now times.now peak.now frac (length out.old)) (fallback_count trace.now ids.now times.now peak.now frac first) }
    ensures words { out.new ≡ fallback_list trace.now ids.now times.now peak.now frac first out.old }
{
    check(trace, ids, times, peak, frac, out.len())?;
    let p = row_record::inner::peak_at(peak, 0);
    let f = inner::fallback_rt_peak_from_trace(trace, ids, times, p, frac, first);
    Ok(put_answer(out, f))
}
