// Marginals: the readings of a block of an index, summed by frame or by scan.
#![tactic(auto)]

pub mod inner;

ghost use Rattle.frames_marginals.specs.Marginals.{RtAnswered, ImAnswered};

use frames_index::FrameIndex;
use inner::Block;
use refusal::Refusal;

// The two marginals check alike, count and sum differently, in a line each: a step for both would take the count and a closure for the
// sums.

// Puts the sums of the block's frames to the front of `out`, in each of the readings with its bins and scans, and answers how many they
// are. Or refuses and leaves `out` as it is.
pub fn build_rt_marginal(ix: &FrameIndex, b: Block, out: &mut [f32]) -> Result<usize, Refusal>
    ensures { RtAnswered ix.now b out.old out.new result }
{
    let n = b.frames();
    let ix = inner::check(limits::MAX_READING, ix, b, n, out.len())?;
    frames_sums::inner::put_frame_sums(&ix, b.frame_range(), b.window(), out);
    Ok(n)
}

// Puts the sums of the block's scans to the front of `out`, at each of the readings of its frames with its bins, and answers how many
// they are. Or refuses and leaves `out` as it is.
pub fn build_im_marginal(ix: &FrameIndex, b: Block, out: &mut [f32]) -> Result<usize, Refusal>
    ensures { ImAnswered ix.now b out.old out.new result }
{
    let n = b.scans();
    let ix = inner::check(limits::MAX_READING, ix, b, n, out.len())?;
    frames_scan_sums::inner::put_scan_sums(&ix, b.frame_range(), b.window(), out);
    Ok(n)
}
