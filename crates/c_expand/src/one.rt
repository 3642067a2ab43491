// The retention peaks of one mobility peak as a C function on numbers and lists. Each list is an argument of its own.
ghost use Rattle.std.specs.Prelude.{◌≡◌};
ghost use Rattle.frames_index.specs.FrameIndex.{index_of};
ghost use Rattle.expand_peak.specs.Expanded.{run_of};
ghost use Rattle.expand.specs.ExpandCall.{lent_of};
ghost use Rattle.rt_params.specs.Given.{params_of};
ghost use Rattle.c_expand.specs.Expansion.{scale_of, OneTold};

use c_word::word_of;
use expand::lent::Lent;
use expand_one::run::Run;
use frames_index::FrameIndex;
use tof_scale::TofScale;

// Writes the records of a mobility peak's retention peaks to the front of `out` and answers 64 times their count, or answers with a number
// and leaves all four lists as they are.
#[unsafe(no_mangle)]
pub extern "C" fn rubzolena_expand_im_peak(
    peak: &[u32],
    starts: &[u32],
    bins: &[u32],
    offsets: &[u32],
    scans: &[u32],
    readings: &[f32],
    ids: &[u32],
    times: &[f32],
    tof_min: u32,
    tof_max: u32,
    tof_step: u32,
    num_bins: u32,
    bin_pad: u32,
    smooth_sigma_sec: f32,
    min_prom_kind: u32,
    min_prom: f32,
    min_sep_sec: f32,
    min_width_sec: f32,
    fallback_if_frames_lt: u32,
    fallback_frac_width: f32,
    rt_pad_frames: u32,
    weights: &[f32],
    first: u32,
    out: &mut [u32],
    raw: &mut [f32],
    smooth: &mut [f32],
    order: &mut [u32],
) -> u64
    ensures { OneTold (run_of (index_of starts.now bins.now offsets.now scans.now readings.now) ids.now times.now (scale_of tof_min tof_max tof_step num_bins))
        (params_of bin_pad smooth_sigma_sec min_prom_kind min_prom min_sep_sec min_width_sec fallback_if_frames_lt fallback_frac_width rt_pad_frames)
        peak.now weights.now first
        (lent_of out.old raw.old smooth.old order.old)
        (lent_of out.new raw.new smooth.new order.new) result }
{
    let scale = TofScale {
        tof_min,
        tof_max,
        tof_step,
        num_bins,
    };
    let params = rt_params::given::expand_params(
        bin_pad,
        smooth_sigma_sec,
        min_prom_kind,
        min_prom,
        min_sep_sec,
        min_width_sec,
        fallback_if_frames_lt,
        fallback_frac_width,
        rt_pad_frames,
    );
    let index = FrameIndex {
        starts,
        bins,
        offsets,
        scans,
        readings,
    };
    let run = Run {
        index: &index,
        ids,
        times,
        scale,
    };
    let mut lent = Lent {
        out,
        raw,
        smooth,
        order,
    };
    let answer = expand::expand_im_peak_along_rt(&run, params, peak, weights, first, &mut lent);
    word_of(answer)
}
