// The retention peaks of a trace.
ghost use Rattle.rt_peaks.specs.Trace.{call_of};
ghost use Rattle.rt_params.specs.Given.{threshold_of};
ghost use Rattle.c_rt.specs.Search.{Answered};

// Writes the records of a trace's retention peaks to the front of `out` and answers 64 times their count, or answers with a number and
// leaves both lists as they are.
#[unsafe(no_mangle)]
pub extern "C" fn rubzolena_find_rt_peaks(
    y_smoothed: &[f32],
    y_raw: &[f32],
    times: &[f32],
    min_prom_kind: u32,
    min_prom: f32,
    min_sep_sec: f32,
    min_width_sec: f32,
    out: &mut [u32],
    scratch: &mut [u32],
) -> u64
    ensures { Answered (call_of y_smoothed.now y_raw.now times.now (threshold_of min_prom_kind min_prom) min_sep_sec min_width_sec)
        out.old out.new scratch.old scratch.new result }
{
    c_rt::search::rubzolena_find_rt_peaks(
        y_smoothed,
        y_raw,
        times,
        min_prom_kind,
        min_prom,
        min_sep_sec,
        min_width_sec,
        out,
        scratch,
    )
}
