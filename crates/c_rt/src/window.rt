// The first call of expansion as a C function on numbers and lists. Each list is an argument of its own.
ghost use Rattle.std.specs.Prelude.{◌≡◌, [], ◌∷◌, ◌++◌, ◌≤◌, length, drop};
ghost use Rattle.std.specs.Float.{binary32};
ghost use Rattle.std.specs.Float.Ieee.{to_bits};
ghost use Rattle.rt_params.specs.Given.{params_of};
ghost use Rattle.refusal.specs.Answers.{answer_by};
ghost use Rattle.refusal.specs.Numbered.{says};
ghost use Rattle.row_record.specs.Record.{peak_at};
ghost use Rattle.expand_window.specs.Window.{window_of};
ghost use Rattle.c_rt.specs.Window.{window_count, call_number, list_after, Answered};

use refusal::Refusal;
use rt_params::RtExpandParams;

// Writes a window to the front of a list.
fn put(out: &mut [u32], lo: u32, hi: u32, sigma: f32)
    requires { 3 ≤ length out.old }
    ensures { out.new ≡ (lo ∷ hi ∷ to_bits binary32 sigma ∷ []) ++ drop 3 out.old }
{
    out[..3].copy_from_slice(&[lo, hi, numeric::word_of(sigma)]);
}

// Writes the window of a peak, if it has one, to the front of `out` and answers how many it has, or refuses the call and leaves `out` as
// it is. Frame numbers and times are two lists, as docs/SCOPE.md wants of what stands below `rt_trace_ctx`.
fn put_window(
    peak: &[u32],
    ids: &[u32],
    times: &[f32],
    params: RtExpandParams,
    out: &mut [u32],
) -> Result<usize, Refusal>
    ensures answer { says result ≡ answer_by (call_number peak.now ids.now times.now params (length out.old)) (window_count (window_of ids.now times.now params (peak_at peak.now 0))) }
    ensures list { out.new ≡ list_after peak.now ids.now times.now params out.old }
{
    let window = expand_window::expand_im_peak_window(peak, ids, times, params)?;
    if out.len() < 3 {
        return Err(Refusal::Room);
    }
    let Some(w) = window else {
        return Ok(0);
    };
    put(out, w.frames.lo as u32, w.frames.hi as u32, w.sigma);
    Ok(1)
}

// Writes the window of a peak, the first frame, the last and the bits of sigma, to the front of `out` and answers 64, or answers 0 where
// there is none, or a number, and then leaves `out` as it is.
#[unsafe(no_mangle)]
pub extern "C" fn rubzolena_expand_window(
    peak: &[u32],
    ids: &[u32],
    times: &[f32],
    bin_pad: u32,
    smooth_sigma_sec: f32,
    min_prom_kind: u32,
    min_prom: f32,
    min_sep_sec: f32,
    min_width_sec: f32,
    fallback_if_frames_lt: u32,
    fallback_frac_width: f32,
    rt_pad_frames: u32,
    out: &mut [u32],
) -> u64
    ensures { Answered peak.now ids.now times.now
        (params_of bin_pad smooth_sigma_sec min_prom_kind min_prom min_sep_sec min_width_sec fallback_if_frames_lt fallback_frac_width rt_pad_frames)
        out.old out.new result }
{
    let params = rt_params::given::expand_params(
        bin_pad,
        smooth_sigma_sec,
        min_prom_kind,
        min_prom,
        min_sep_sec,
        min_width_sec,
        fallback_if_frames_lt,
        fallback_frac_width,
        rt_pad_frames,
    );
    let answer = put_window(peak, ids, times, params, out);
    c_word::word_of(answer)
}
