// The retention traces of a list of peaks as a C function on numbers and lists. Each list is an argument of its own.
ghost use Rattle.frames_index.specs.FrameIndex.{index_of};
ghost use Rattle.frames_many_traces.specs.ManyTraces.{call_of};
ghost use Rattle.c_frames.specs.Scale.{scale_of};
ghost use Rattle.c_frames.specs.ManyTraces.{Answered};

use c_word::word_of;
use frames_index::FrameIndex;
use frames_many_traces::peaks::PaddedPeaks;
use tof_scale::TofScale;

// Puts the traces of all peaks of a list one after another to the front of `out` and answers 64 times their count, or answers with a
// number and leaves both lent lists as they are.
#[unsafe(no_mangle)]
pub extern "C" fn rubzolena_rt_traces_for_im_peaks_by_bounds(
    starts: &[u32],
    bins: &[u32],
    offsets: &[u32],
    scans: &[u32],
    readings: &[f32],
    tof_min: u32,
    tof_max: u32,
    tof_step: u32,
    num_bins: u32,
    list: &[u32],
    extra_bins_pad: u32,
    out: &mut [f32],
    windows: &mut [u32],
) -> u64
    ensures { Answered (call_of (index_of starts.now bins.now offsets.now scans.now readings.now)
        (scale_of tof_min tof_max tof_step num_bins) list.now extra_bins_pad)
        out.old windows.old out.new windows.new result }
{
    let scale = TofScale {
        tof_min,
        tof_max,
        tof_step,
        num_bins,
    };
    let ix = FrameIndex {
        starts,
        bins,
        offsets,
        scans,
        readings,
    };
    let peaks = PaddedPeaks {
        list,
        scale,
        pad: extra_bins_pad,
    };
    let answer = frames_many_traces::rt_traces_for_im_peaks_by_bounds(&ix, peaks, out, windows);
    word_of(answer)
}
