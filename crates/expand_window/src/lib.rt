// The first call of expansion: over which frames of the run a mobility peak is followed, and how wide its smoothing is there.
#![tactic(auto)]

pub mod inner;

ghost use Rattle.std.specs.Prelude.{◌≡◌};
ghost use Rattle.refusal.specs.Answers.{answer_by};
ghost use Rattle.refusal.specs.Numbered.{number_in, says};
ghost use Rattle.row_record.specs.Record.{peak_at};
ghost use Rattle.expand_window.specs.Window.{window_of, window_number};

use inner::RtWindow;
use refusal::Refusal;
use row_record::ImPeak1D;
use rt_params::RtExpandParams;

// Refuses with the lowest number that applies.
#[tactic(auto, unfolding(crate::specs::Window::window_number, refusal::specs::Refusal::first_of))]
fn check(peak: &[u32], ids: &[u32], times: &[f32], e: RtExpandParams) -> Result<(), Refusal>
    ensures { number_in result ≡ window_number peak.now ids.now times.now e }
{
    if !((peak.len() == ImPeak1D::WORDS) & (times.len() == ids.len())) {
        return Err(Refusal::Lengths);
    }
    if ids.len() > limits::MAX_FRAMES {
        return Err(Refusal::Size);
    }
    if !(e.is_sound() & numeric::inner::all_in_range(times, limits::MAX_SECONDS)) {
        return Err(Refusal::Value);
    }
    if !rt_time::inner::rising_axes(ids, times) {
        return Err(Refusal::Order);
    }
    if !row_record::inner::all_sound(peak) {
        return Err(Refusal::Record);
    }
    Ok(())
}

// The padded frame window of the peak whose record is handed in, the first frame and the last by their places in the run, and the
// sigma of its smoothing in frames; or that it has none. The weights that expansion is handed are made for this sigma.
pub fn expand_im_peak_window(
    peak: &[u32],
    ids: &[u32],
    times: &[f32],
    e: RtExpandParams,
) -> Result<Option<RtWindow>, Refusal>
    ensures { says result ≡ answer_by (window_number peak.now ids.now times.now e)
        (window_of ids.now times.now e (peak_at peak.now 0)) }
{
    check(peak, ids, times, e)?;
    let p = row_record::inner::peak_at(peak, 0);
    Ok(inner::window_of(ids, times, e, p))
}
