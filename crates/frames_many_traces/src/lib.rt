// The retention traces of many mobility peaks over one index, which is looked through once.
#![tactic(auto)]

pub mod inner;
pub mod numbers;
pub mod peaks;

ghost use Rattle.frames_many_traces.specs.ManyTraces.{call_of, Answered};

use frames_index::FrameIndex;
use numbers::Rooms;
use peaks::PaddedPeaks;
use refusal::Refusal;

// Puts for each peak of a list its trace by its TOF bounds and its absolute scans to the front of `out`, peak after peak, and in a trace a
// sum for each frame, and answers how many traces they are. `windows` is scratch, four words a peak. Or refuses and leaves both lists as
// they are.
pub fn rt_traces_for_im_peaks_by_bounds(
    ix: &FrameIndex,
    peaks: PaddedPeaks<'_>,
    out: &mut [f32],
    windows: &mut [u32],
) -> Result<usize, Refusal>
    ensures { Answered (call_of ix.now peaks.entry.scale peaks.entry.list.now peaks.entry.pad) out.old windows.old out.new windows.new result }
{
    let room = Rooms {
        out: out.len(),
        windows: windows.len(),
    };
    let ix = numbers::check(limits::MAX_READING, ix, peaks, room)?;
    inner::put_traces(&ix, peaks, out, windows);
    Ok(peaks.count())
}
