// Marginals.
ghost use Rattle.frames_sums.specs.Steps.{index_of};
ghost use Rattle.frames_marginals.specs.Marginals.{block_of};
ghost use Rattle.c_frames.specs.Marginals.{RtSummed, ImSummed};

// Puts the sums of the frames rt_lo to rt_hi to the front of `out` and answers 64 times their count, or answers with a number and leaves
// `out` as it is.
#[unsafe(no_mangle)]
pub extern "C" fn rubzolena_build_rt_marginal(
    starts: &[u32],
    bins: &[u32],
    offsets: &[u32],
    scans: &[u32],
    readings: &[f32],
    rt_lo: u32,
    rt_hi: u32,
    bin_lo: u32,
    bin_hi: u32,
    im_lo: u32,
    im_hi: u32,
    out: &mut [f32],
) -> u64
    ensures { RtSummed (index_of starts.now bins.now offsets.now scans.now readings.now)
        (block_of rt_lo rt_hi bin_lo bin_hi im_lo im_hi) out.old out.new result }
{
    c_frames::blocks::rubzolena_build_rt_marginal(
        starts, bins, offsets, scans, readings, rt_lo, rt_hi, bin_lo, bin_hi, im_lo, im_hi, out,
    )
}

// The same for the sums of the scans im_lo to im_hi.
#[unsafe(no_mangle)]
pub extern "C" fn rubzolena_build_im_marginal(
    starts: &[u32],
    bins: &[u32],
    offsets: &[u32],
    scans: &[u32],
    readings: &[f32],
    rt_lo: u32,
    rt_hi: u32,
    bin_lo: u32,
    bin_hi: u32,
    im_lo: u32,
    im_hi: u32,
    out: &mut [f32],
) -> u64
    ensures { ImSummed (index_of starts.now bins.now offsets.now scans.now readings.now)
        (block_of rt_lo rt_hi bin_lo bin_hi im_lo im_hi) out.old out.new result }
{
    c_frames::blocks::rubzolena_build_im_marginal(
        starts, bins, offsets, scans, readings, rt_lo, rt_hi, bin_lo, bin_hi, im_lo, im_hi, out,
    )
}
