// The retention peaks of one mobility peak.
ghost use Rattle.frames_sums.specs.Steps.{index_of};
ghost use Rattle.expand_peak.specs.Expanded.{run_of};
ghost use Rattle.expand.specs.ExpandCall.{lent_of};
ghost use Rattle.rt_params.specs.Given.{params_of};
ghost use Rattle.c_expand.specs.Expansion.{scale_of, OneTold};

// Writes the records of a mobility peak's retention peaks to the front of `out` and answers 64 times their count, or answers with a number
// and leaves all four lists as they are.
#[unsafe(no_mangle)]
pub extern "C" fn rubzolena_expand_im_peak(
    peak: &[u32],
    starts: &[u32],
    bins: &[u32],
    offsets: &[u32],
    scans: &[u32],
    readings: &[f32],
    ids: &[u32],
    times: &[f32],
    tof_min: u32,
    tof_max: u32,
    tof_step: u32,
    num_bins: u32,
    bin_pad: u32,
    smooth_sigma_sec: f32,
    min_prom_kind: u32,
    min_prom: f32,
    min_sep_sec: f32,
    min_width_sec: f32,
    fallback_if_frames_lt: u32,
    fallback_frac_width: f32,
    rt_pad_frames: u32,
    weights: &[f32],
    first: u32,
    out: &mut [u32],
    raw: &mut [f32],
    smooth: &mut [f32],
    order: &mut [u32],
) -> u64
    ensures { OneTold (run_of (index_of starts.now bins.now offsets.now scans.now readings.now) ids.now times.now (scale_of tof_min tof_max tof_step num_bins))
        (params_of bin_pad smooth_sigma_sec min_prom_kind min_prom min_sep_sec min_width_sec fallback_if_frames_lt fallback_frac_width rt_pad_frames)
        peak.now weights.now first
        (lent_of out.old raw.old smooth.old order.old)
        (lent_of out.new raw.new smooth.new order.new) result }
{
    c_expand::one::rubzolena_expand_im_peak(
        peak,
        starts,
        bins,
        offsets,
        scans,
        readings,
        ids,
        times,
        tof_min,
        tof_max,
        tof_step,
        num_bins,
        bin_pad,
        smooth_sigma_sec,
        min_prom_kind,
        min_prom,
        min_sep_sec,
        min_width_sec,
        fallback_if_frames_lt,
        fallback_frac_width,
        rt_pad_frames,
        weights,
        first,
        out,
        raw,
        smooth,
        order,
    )
}
