// The first call for a peak and a run that the caller has checked.
ghost use Rattle.std.specs.Prelude.{◌≡◌, true, ◌≤◌, ◌<◌, length};
ghost use Rattle.row_params.specs.Params.{rising};
ghost use Rattle.expand_window.specs.Window.{sigma_over, window_of};

use expand_padded_window::Frames;
use row_record::ImPeak1D;
use rt_params::RtExpandParams;

// Frames with the sigma of the smoothing over them.
#[derive(Clone, Copy)]
pub struct RtWindow {
    pub frames: Frames,
    pub sigma: f32,
}

// The sigma of a smoothing of `sec` seconds in frames, over some frames.
#[tactic(auto, unfolding(crate::specs::Window::sigma_over))]
fn sigma_over(sec: f32, times: &[f32], frames: Frames) -> f32
    requires { (frames.lo ≤ frames.hi) × (frames.hi < length times.now) }
    ensures { result ≡ sigma_over sec times.now frames.lo frames.hi }
{
    let end = frames.hi + 1;
    numeric::max(
        sec / rt_noise::inner::effective_dt(&times[frames.lo..end]),
        0.75,
    )
}

// The padded frame window of a peak with its sigma, if it has one. Numbers and times of the frames stand apart, since each step needs the
// one or the other alone.
#[tactic(auto, unfolding(crate::specs::Window::window_of, crate::specs::Window::with_sigma))]
pub fn window_of(ids: &[u32], times: &[f32], e: RtExpandParams, p: ImPeak1D) -> Option<RtWindow>
    requires { (rising ids.now ≡ true) × (length ids.now ≤ 4294967296) × (length times.now ≡ length ids.now) × (p.frame_id_lo ≤ p.frame_id_hi) }
    ensures { result ≡ window_of ids.now times.now e p }
{
    let frames = expand_padded_window::inner::padded_window(
        ids,
        p.frame_id_lo,
        p.frame_id_hi,
        e.rt_pad_frames,
    )?;
    Some(RtWindow {
        frames,
        sigma: sigma_over(e.smooth_sigma_sec, times, frames),
    })
}
