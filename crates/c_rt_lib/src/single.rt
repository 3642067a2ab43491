// The fallback.
ghost use Rattle.c_rt.specs.Fallback.{Answered};

// Puts the record of a trace's peak to the front of `out` and answers 64, or answers 0 where there is none, or a number, and then leaves
// `out` as it is.
#[unsafe(no_mangle)]
pub extern "C" fn rubzolena_fallback_rt_peak(
    trace: &[f32],
    ids: &[u32],
    times: &[f32],
    peak: &[u32],
    frac: f32,
    first: u32,
    out: &mut [u32],
) -> u64
    ensures { Answered trace.now ids.now times.now peak.now frac first out.old out.new result }
{
    c_rt::single::rubzolena_fallback_rt_peak(trace, ids, times, peak, frac, first, out)
}
