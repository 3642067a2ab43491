// Retention traces.
ghost use Rattle.frames_sums.specs.Steps.{index_of};
ghost use Rattle.frames_traces.specs.Traces.{bounds_of};
ghost use Rattle.c_frames.specs.Scale.{scale_of};
ghost use Rattle.c_frames.specs.Traces.{RowSummed, BoundsSummed};

// Puts a sum for each frame to the front of `out`, around a TOF row, and answers 64 times their count, or answers with a number and
// leaves `out` as it is.
#[unsafe(no_mangle)]
pub extern "C" fn rubzolena_rt_trace_for_im_peak(
    starts: &[u32],
    bins: &[u32],
    offsets: &[u32],
    scans: &[u32],
    readings: &[f32],
    tof_row: u32,
    bin_pad: u32,
    scan_lo: u32,
    scan_hi: u32,
    out: &mut [f32],
) -> u64
    ensures { RowSummed (index_of starts.now bins.now offsets.now scans.now readings.now)
        tof_row bin_pad scan_lo scan_hi out.old out.new result }
{
    c_frames::peaks::rubzolena_rt_trace_for_im_peak(
        starts, bins, offsets, scans, readings, tof_row, bin_pad, scan_lo, scan_hi, out,
    )
}

// The same by TOF bounds.
#[unsafe(no_mangle)]
pub extern "C" fn rubzolena_rt_trace_for_im_peak_by_bounds(
    starts: &[u32],
    bins: &[u32],
    offsets: &[u32],
    scans: &[u32],
    readings: &[f32],
    tof_min: u32,
    tof_max: u32,
    tof_step: u32,
    num_bins: u32,
    tof_lo: u32,
    tof_hi: u32,
    extra_bins_pad: u32,
    scan_lo: u32,
    scan_hi: u32,
    out: &mut [f32],
) -> u64
    ensures { BoundsSummed (index_of starts.now bins.now offsets.now scans.now readings.now)
        (scale_of tof_min tof_max tof_step num_bins) (bounds_of tof_lo tof_hi extra_bins_pad scan_lo scan_hi) out.old out.new result }
{
    c_frames::peaks::rubzolena_rt_trace_for_im_peak_by_bounds(
        starts,
        bins,
        offsets,
        scans,
        readings,
        tof_min,
        tof_max,
        tof_step,
        num_bins,
        tof_lo,
        tof_hi,
        extra_bins_pad,
        scan_lo,
        scan_hi,
        out,
    )
}
