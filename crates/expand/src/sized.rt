// The lists of the search, in two sizes, since an array is filled before it is used.
ghost use Rattle.std.specs.Prelude.{◌≤◌, length};
ghost use Rattle.limits.specs.Limits.{max_frames};
ghost use Rattle.row_search.specs.Room.{Sizes};
ghost use Rattle.expand_many.specs.Calls.{many_in};
ghost use Rattle.expand_many.specs.Steps.{Ready, Done};
ghost use Rattle.expand.specs.Steps.{Lendable};

use expand_many::peaks::PeakList;
use expand_one::run::FollowedRun;
use expand_one::scratch::RunScratch;
use expand_peak::scratch::TraceScratch;
use row_search::scratch::Arrays;

// Expands all mobility peaks of a list, with room for a run of N frames. It is no part of its caller, so that shorter runs do not pay for
// the lists of longer ones. Scratch stands list by list, as below.
#[inline(never)]
fn expand_in<const N: usize, const B: usize>(
    run: &FollowedRun<'_>,
    peaks: &PeakList<'_>,
    out: &mut [u32],
    counts: &mut [u32],
    raw: &mut [f32],
    smooth: &mut [f32],
    order: &mut [u32],
) -> usize
    requires run { Ready (many_in run.now peaks.now) (length peaks.now.lengths.now) (length out.old) (length counts.old)
        × Lendable (length run.now.ids.now) (length raw.old) (length smooth.old) (length order.old) × (length run.now.ids.now ≤ N) }
    requires sizes { Sizes N B }
    ensures { Done (many_in run.now peaks.now) (length peaks.now.lengths.now) out.old counts.old result out.new counts.new }
{
    let mut lists = Arrays::<N, B>::new();
    let mut near = [0u32; N];
    let trace = TraceScratch {
        smooth,
        search: lists.lend(run.ids.len()),
        order,
    };
    let mut scratch = RunScratch {
        raw,
        near: &mut near,
        trace,
    };
    expand_many::inner::expand_peaks(run, peaks, &mut scratch, out, counts)
}

// The same for any run of at most 16,384 frames. Scratch stands list by list: the caller lends the front of each, and the borrow checker
// has no rule for a struct of parts of lists that stand in a lent struct.
pub fn expand_sized(
    run: &FollowedRun<'_>,
    peaks: &PeakList<'_>,
    out: &mut [u32],
    counts: &mut [u32],
    raw: &mut [f32],
    smooth: &mut [f32],
    order: &mut [u32],
) -> usize
    requires { Ready (many_in run.now peaks.now) (length peaks.now.lengths.now) (length out.old) (length counts.old)
        × Lendable (length run.now.ids.now) (length raw.old) (length smooth.old) (length order.old) × (length run.now.ids.now ≤ max_frames) }
    ensures { Done (many_in run.now peaks.now) (length peaks.now.lengths.now) out.old counts.old result out.new counts.new }
{
    if run.ids.len() <= 1024 {
        return expand_in::<1024, 800>(run, peaks, out, counts, raw, smooth, order);
    }
    expand_in::<16384, 8480>(run, peaks, out, counts, raw, smooth, order)
}
