// The first call of expansion.
ghost use Rattle.rt_params.specs.Given.{params_of};
ghost use Rattle.c_rt.specs.Window.{Answered};

// Writes the window of a peak, the first frame, the last and the bits of sigma, to the front of `out` and answers 64, or answers 0 where
// there is none, or a number, and then leaves `out` as it is.
#[unsafe(no_mangle)]
pub extern "C" fn rubzolena_expand_window(
    peak: &[u32],
    ids: &[u32],
    times: &[f32],
    bin_pad: u32,
    smooth_sigma_sec: f32,
    min_prom_kind: u32,
    min_prom: f32,
    min_sep_sec: f32,
    min_width_sec: f32,
    fallback_if_frames_lt: u32,
    fallback_frac_width: f32,
    rt_pad_frames: u32,
    out: &mut [u32],
) -> u64
    ensures { Answered peak.now ids.now times.now
        (params_of bin_pad smooth_sigma_sec min_prom_kind min_prom min_sep_sec min_width_sec fallback_if_frames_lt fallback_frac_width rt_pad_frames)
        out.old out.new result }
{
    c_rt::window::rubzolena_expand_window(
        peak,
        ids,
        times,
        bin_pad,
        smooth_sigma_sec,
        min_prom_kind,
        min_prom,
        min_sep_sec,
        min_width_sec,
        fallback_if_frames_lt,
        fallback_frac_width,
        rt_pad_frames,
        out,
    )
}
