// The retention peaks of a trace over its frames.
#![tactic(auto)]

pub mod inner;

ghost use Rattle.std.specs.Prelude.{◌≡◌, ◌++◌, ◌≤◌, ◌*◌, length, drop};
ghost use Rattle.limits.specs.Limits.{max_frames};
ghost use Rattle.refusal.specs.Numbered.{number_in};
ghost use Rattle.rt_record.specs.RtRecord.{local_size};
ghost use Rattle.rt_peaks.specs.Steps.{Checked};
ghost use Rattle.rt_peaks.specs.Trace.{call_of, floor_of, peaks_of, peak_words, same_lengths, sound_readings, sound_values, rt_number, Answered};

use refusal::Refusal;
use rt_apex::inner::Trace;
use rt_params::ThresholdMode;
use rt_record::RtLocalPeak;
use rt_search::inner::Sought;

// What is asked of the peaks of a trace: the threshold, the least separation in time and the least width, both in seconds.
#[derive(Clone, Copy)]
pub struct RtSearch {
    pub min_prom: ThresholdMode,
    pub min_sep_sec: f32,
    pub min_width_sec: f32,
}

// The parts of the numbers 1, 3 and 4.
#[tactic(auto, unfolding(crate::specs::Trace::same_lengths))]
fn same_lengths(trace: Trace) -> bool
    ensures { result ≡ same_lengths trace.entry.smoothed.now trace.entry.raw.now trace.entry.times.now }
{
    let n = trace.smoothed.len();
    (trace.raw.len() == n) & (trace.times.len() == n)
}

#[tactic(auto, unfolding(crate::specs::Trace::sound_readings))]
fn sound_readings(trace: Trace) -> bool
    ensures { result ≡ sound_readings trace.entry.smoothed.now trace.entry.raw.now }
{
    numeric::inner::all_in_range(trace.smoothed, limits::MAX_HEIGHT)
        & numeric::inner::all_in_range(trace.raw, limits::MAX_READING)
}

#[tactic(auto, unfolding(crate::specs::Trace::sound_values))]
fn sound_values(asked: RtSearch, times: &[f32]) -> bool
    ensures { result ≡ sound_values asked.min_prom asked.min_sep_sec asked.min_width_sec times.now }
{
    asked.min_prom.is_sound()
        & numeric::in_range(asked.min_sep_sec, limits::MAX_SECONDS)
        & numeric::in_range(asked.min_width_sec, limits::MAX_SECONDS)
        & numeric::inner::all_in_range(times, limits::MAX_SECONDS)
}

// Refuses with the lowest number that applies; `room` and `scratch` are the lengths of the lent lists.
#[tactic(auto, unfolding(crate::specs::Trace::rt_number, refusal::specs::Refusal::first_of))]
fn check(trace: Trace, asked: RtSearch, room: usize, scratch: usize) -> Result<(), Refusal>
    ensures { number_in result ≡ rt_number (call_of trace.entry.smoothed.now trace.entry.raw.now trace.entry.times.now asked.min_prom asked.min_sep_sec asked.min_width_sec) room scratch }
{
    if !same_lengths(trace) {
        return Err(Refusal::Lengths);
    }
    let n = trace.smoothed.len();
    if n > limits::MAX_FRAMES {
        return Err(Refusal::Size);
    }
    if !sound_readings(trace) {
        return Err(Refusal::Reading);
    }
    if !sound_values(asked, trace.times) {
        return Err(Refusal::Value);
    }
    if !rt_time::inner::never_falls(trace.times) {
        return Err(Refusal::Order);
    }
    if room < row_params::inner::most_peaks(n) * RtLocalPeak::WORDS {
        return Err(Refusal::Room);
    }
    if scratch < n {
        return Err(Refusal::Scratch);
    }
    Ok(())
}

// The floor: the effective threshold at the noise of the smoothed trace.
#[tactic(auto, unfolding(crate::specs::Trace::floor_of))]
fn floor_of(y: &[f32], mode: ThresholdMode) -> f32
    ensures { result ≡ floor_of y.now mode }
{
    mode.effective(rt_noise::inner::robust_noise_mad(y))
}

// Lists the peaks of a trace that was checked, with the first n words of `scratch` for the order, n being the count of frames.
fn list_accepted(trace: Trace, asked: RtSearch, out: &mut [u32], scratch: &mut [u32]) -> usize
    requires { Checked trace.smoothed.now trace.raw.now trace.times.now (length trace.smoothed.now) (length out.old) × (length trace.smoothed.now ≤ max_frames) × (length trace.smoothed.now ≤ length scratch.old) }
    ensures count { result ≡ length (peaks_of (call_of trace.entry.smoothed.now trace.entry.raw.now trace.entry.times.now asked.min_prom asked.min_sep_sec asked.min_width_sec)) }
    ensures front { out.new ≡ peak_words (peaks_of (call_of trace.entry.smoothed.now trace.entry.raw.now trace.entry.times.now asked.min_prom asked.min_sep_sec asked.min_width_sec)) ++ drop (result * local_size) out.old }
    ensures past { drop (length trace.entry.smoothed.now) scratch.new ≡ drop (length trace.entry.smoothed.now) scratch.old }
{
    let sought = Sought {
        floor: floor_of(trace.smoothed, asked.min_prom),
        sep: asked.min_sep_sec,
        min_width: asked.min_width_sec,
    };
    let n = trace.smoothed.len();
    inner::find_rt_peaks(trace, sought, &mut scratch[..n], out)
}

// Writes the records of the retention peaks of a trace to the front of `out` and answers how many there are, or refuses the call and
// leaves `out` and `scratch` as they are.
pub fn find_rt_peaks(
    trace: Trace,
    asked: RtSearch,
    out: &mut [u32],
    scratch: &mut [u32],
) -> Result<usize, Refusal>
    ensures { Answered (call_of trace.entry.smoothed.now trace.entry.raw.now trace.entry.times.now asked.min_prom asked.min_sep_sec asked.min_width_sec) out.old out.new scratch.old scratch.new result }
{
    check(trace, asked, out.len(), scratch.len())?;
    Ok(list_accepted(trace, asked, out, scratch))
}
