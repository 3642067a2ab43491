// The two lists by which a run is followed, frame numbers and times, held together. A method takes them apart and calls the function that
// is handed them one by one: docs/SCOPE.md wants both. Index and scale stay two parameters, since a struct of them would be all of a `Run`
// but for the two lists.
#![tactic(auto)]

ghost use Rattle.std.specs.Prelude.{◌≡◌, length};
ghost use Rattle.refusal.specs.Answers.{answer_by};
ghost use Rattle.refusal.specs.Numbered.{says};
ghost use Rattle.row_record.specs.Record.{peak_at};
ghost use Rattle.expand_window.specs.Window.{window_of, window_number};
ghost use Rattle.rt_fallback.specs.FallbackNumber.{fallback_number, fallback_count, fallback_list};
ghost use Rattle.expand_peak.specs.Expanded.{run_of};
ghost use Rattle.expand_many.specs.Many.{many_of};
ghost use Rattle.expand.specs.ExpandCall.{OneAnswered, ManyAnswered};
ghost use Rattle.expand.specs.Lists.{lent_in, SameLists, SameLengths};

use expand::lent::Lent;
use expand_many::peaks::PeakList;
use expand_one::run::Run;
use expand_window::inner::RtWindow;
use frames_index::FrameIndex;
use refusal::Refusal;
use row_record::PeakId;
use rt_params::RtExpandParams;
use tof_scale::TofScale;

#[derive(Clone, Copy)]
pub struct RtTraceCtx<'a> {
    pub frame_ids_sorted: &'a [u32],
    pub rt_times_sec: &'a [f32],
}

impl<'a> RtTraceCtx<'a> {
    // The first call of expansion.
    pub fn expand_im_peak_window(
        self,
        peak: &[u32],
        e: RtExpandParams,
    ) -> Result<Option<RtWindow>, Refusal>
        ensures { says result ≡ answer_by (window_number peak.now self.entry.frame_ids_sorted.now self.entry.rt_times_sec.now e)
            (window_of self.entry.frame_ids_sorted.now self.entry.rt_times_sec.now e (peak_at peak.now 0)) }
    {
        expand_window::expand_im_peak_window(peak, self.frame_ids_sorted, self.rt_times_sec, e)
    }

    // The one peak of a trace that is too short to be searched, or in which none was found.
    pub fn fallback_rt_peak_from_trace(
        self,
        trace: &[f32],
        peak: &[u32],
        frac: f32,
        first: PeakId,
        out: &mut [u32],
    ) -> Result<usize, Refusal>
        ensures answer { says result ≡ answer_by (fallback_number trace.now self.entry.frame_ids_sorted.now self.entry.rt_times_sec.now peak.now frac (length out.old)) (fallback_count trace.now self.entry.frame_ids_sorted.now self.entry.rt_times_sec.now peak.now frac first) }
        ensures words { out.new ≡ fallback_list trace.now self.entry.frame_ids_sorted.now self.entry.rt_times_sec.now peak.now frac first out.old }
    {
        let ids = self.frame_ids_sorted;
        let times = self.rt_times_sec;
        rt_fallback::fallback_rt_peak_from_trace(trace, ids, times, peak, frac, first, out)
    }

    // The second call of expansion, for one mobility peak.
    pub fn expand_im_peak_along_rt(
        self,
        index: &FrameIndex<'_>,
        scale: TofScale,
        e: RtExpandParams,
        peak: &[u32],
        weights: &[f32],
        first: PeakId,
        lent: &mut Lent<'_>,
    ) -> Result<usize, Refusal>
        ensures answer { OneAnswered (run_of index.now self.entry.frame_ids_sorted.now self.entry.rt_times_sec.now scale) e peak.now weights.now first
            (lent_in lent.old) (lent_in lent.new) result }
        ensures same { SameLists lent.old lent.new }
        ensures lengths { SameLengths lent.old lent.new }
    {
        let run = Run {
            index,
            ids: self.frame_ids_sorted,
            times: self.rt_times_sec,
            scale,
        };
        expand::expand_im_peak_along_rt(&run, e, peak, weights, first, lent)
    }

    // The second call of expansion, for a list of mobility peaks.
    pub fn expand_many_im_peaks_along_rt(
        self,
        index: &FrameIndex<'_>,
        scale: TofScale,
        e: RtExpandParams,
        peaks: PeakList<'_>,
        lent: &mut Lent<'_>,
        counts: &mut [u32],
    ) -> Result<usize, Refusal>
        ensures answer { ManyAnswered (many_of (run_of index.now self.entry.frame_ids_sorted.now self.entry.rt_times_sec.now scale) e peaks.entry.list.now peaks.entry.weights.now peaks.entry.lengths.now peaks.entry.first)
            (lent_in lent.old) (lent_in lent.new) counts.old counts.new result }
        ensures same { SameLists lent.old lent.new }
        ensures lengths { SameLengths lent.old lent.new }
    {
        let run = Run {
            index,
            ids: self.frame_ids_sorted,
            times: self.rt_times_sec,
            scale,
        };
        expand::expand_many_im_peaks_along_rt(&run, e, peaks, lent, counts)
    }
}
