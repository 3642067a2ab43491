// Marginals as C functions on numbers and lists. Each list is an argument of its own, and each of the two makes its structs of them.
ghost use Rattle.frames_index.specs.FrameIndex.{index_of};
ghost use Rattle.frames_marginals.specs.Marginals.{block_of};
ghost use Rattle.c_frames.specs.Marginals.{RtSummed, ImSummed};

use c_word::word_of;
use frames_index::FrameIndex;
use frames_marginals::inner::Block;

// Puts the sums of the frames rt_lo to rt_hi to the front of `out` and answers 64 times their count, or answers with a number and leaves
// `out` as it is.
#[unsafe(no_mangle)]
pub extern "C" fn rubzolena_build_rt_marginal(
    starts: &[u32],
    bins: &[u32],
    offsets: &[u32],
    scans: &[u32],
    readings: &[f32],
    rt_lo: u32,
    rt_hi: u32,
    bin_lo: u32,
    bin_hi: u32,
    im_lo: u32,
    im_hi: u32,
    out: &mut [f32],
) -> u64
    ensures { RtSummed (index_of starts.now bins.now offsets.now scans.now readings.now)
        (block_of rt_lo rt_hi bin_lo bin_hi im_lo im_hi) out.old out.new result }
{
    let ix = FrameIndex {
        starts,
        bins,
        offsets,
        scans,
        readings,
    };
    let b = Block {
        rt_lo,
        rt_hi,
        bin_lo,
        bin_hi,
        im_lo,
        im_hi,
    };
    let answer = frames_marginals::build_rt_marginal(&ix, b, out);
    word_of(answer)
}

// The same for the sums of the scans im_lo to im_hi.
#[unsafe(no_mangle)]
pub extern "C" fn rubzolena_build_im_marginal(
    starts: &[u32],
    bins: &[u32],
    offsets: &[u32],
    scans: &[u32],
    readings: &[f32],
    rt_lo: u32,
    rt_hi: u32,
    bin_lo: u32,
    bin_hi: u32,
    im_lo: u32,
    im_hi: u32,
    out: &mut [f32],
) -> u64
    ensures { ImSummed (index_of starts.now bins.now offsets.now scans.now readings.now)
        (block_of rt_lo rt_hi bin_lo bin_hi im_lo im_hi) out.old out.new result }
{
    let ix = FrameIndex {
        starts,
        bins,
        offsets,
        scans,
        readings,
    };
    let b = Block {
        rt_lo,
        rt_hi,
        bin_lo,
        bin_hi,
        im_lo,
        im_hi,
    };
    let answer = frames_marginals::build_im_marginal(&ix, b, out);
    word_of(answer)
}
