// The points of a frame as its part of an index.
ghost use Rattle.frames_view.specs.Answer.{frame_of, lent_of};
ghost use Rattle.c_frames.specs.Scale.{scale_of};
ghost use Rattle.c_frames.specs.View.{Answered};

// Puts the points of a frame that have a bin, sorted by bin, to the front of four lists and answers 64 times the count of bins; or
// answers with a number and leaves all seven lists as they are. The place where the last bin ends is the last of the offsets.
#[unsafe(no_mangle)]
pub extern "C" fn rubzolena_build_frame_bin_view(
    tofs: &[u32],
    scans: &[u32],
    readings: &[f32],
    tof_min: u32,
    tof_max: u32,
    tof_step: u32,
    num_bins: u32,
    global_num_scans: u32,
    base: usize,
    out_bins: &mut [u32],
    out_offsets: &mut [u32],
    out_scans: &mut [u32],
    out_readings: &mut [f32],
    keys: &mut [u32],
    order: &mut [u32],
    spare: &mut [u32],
) -> u64
    ensures { Answered
        (frame_of tofs.now scans.now readings.now (scale_of tof_min tof_max tof_step num_bins) global_num_scans base)
        (lent_of out_bins.old out_offsets.old out_scans.old out_readings.old keys.old order.old spare.old)
        (lent_of out_bins.new out_offsets.new out_scans.new out_readings.new keys.new order.new spare.new)
        result }
{
    c_frames::view::rubzolena_build_frame_bin_view(
        tofs,
        scans,
        readings,
        tof_min,
        tof_max,
        tof_step,
        num_bins,
        global_num_scans,
        base,
        out_bins,
        out_offsets,
        out_scans,
        out_readings,
        keys,
        order,
        spare,
    )
}
