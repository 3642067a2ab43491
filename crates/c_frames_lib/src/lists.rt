// The retention traces of a list of peaks.
ghost use Rattle.frames_sums.specs.Steps.{index_of};
ghost use Rattle.frames_many_traces.specs.ManyTraces.{call_of};
ghost use Rattle.c_frames.specs.Scale.{scale_of};
ghost use Rattle.c_frames.specs.ManyTraces.{Answered};

// Puts the traces of all peaks of a list one after another to the front of `out` and answers 64 times their count, or answers with a
// number and leaves both lent lists as they are.
#[unsafe(no_mangle)]
pub extern "C" fn rubzolena_rt_traces_for_im_peaks_by_bounds(
    starts: &[u32],
    bins: &[u32],
    offsets: &[u32],
    scans: &[u32],
    readings: &[f32],
    tof_min: u32,
    tof_max: u32,
    tof_step: u32,
    num_bins: u32,
    list: &[u32],
    extra_bins_pad: u32,
    out: &mut [f32],
    windows: &mut [u32],
) -> u64
    ensures { Answered (call_of (index_of starts.now bins.now offsets.now scans.now readings.now)
        (scale_of tof_min tof_max tof_step num_bins) list.now extra_bins_pad)
        out.old windows.old out.new windows.new result }
{
    c_frames::lists::rubzolena_rt_traces_for_im_peaks_by_bounds(
        starts,
        bins,
        offsets,
        scans,
        readings,
        tof_min,
        tof_max,
        tof_step,
        num_bins,
        list,
        extra_bins_pad,
        out,
        windows,
    )
}
