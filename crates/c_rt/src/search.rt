// The retention peaks of a trace as a C function on numbers and lists. Each list is an argument of its own.
ghost use Rattle.rt_peaks.specs.Trace.{call_of};
ghost use Rattle.rt_params.specs.Given.{threshold_of};
ghost use Rattle.c_rt.specs.Search.{Answered};

use rt_apex::inner::Trace;
use rt_peaks::RtSearch;

// Writes the records of a trace's retention peaks to the front of `out` and answers 64 times their count, or answers with a number and
// leaves both lists as they are.
#[unsafe(no_mangle)]
pub extern "C" fn rubzolena_find_rt_peaks(
    y_smoothed: &[f32],
    y_raw: &[f32],
    times: &[f32],
    min_prom_kind: u32,
    min_prom: f32,
    min_sep_sec: f32,
    min_width_sec: f32,
    out: &mut [u32],
    scratch: &mut [u32],
) -> u64
    ensures { Answered (call_of y_smoothed.now y_raw.now times.now (threshold_of min_prom_kind min_prom) min_sep_sec min_width_sec)
        out.old out.new scratch.old scratch.new result }
{
    let trace = Trace {
        smoothed: y_smoothed,
        raw: y_raw,
        times,
    };
    let asked = RtSearch {
        min_prom: rt_params::given::threshold(min_prom_kind, min_prom),
        min_sep_sec,
        min_width_sec,
    };
    let answer = rt_peaks::find_rt_peaks(trace, asked, out, scratch);
    c_word::word_of(answer)
}
