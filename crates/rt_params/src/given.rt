// Thresholds and parameters that are handed over as numbers.
ghost use Rattle.std.specs.Prelude.{◌≡◌};
ghost use Rattle.rt_params.specs.Given.{threshold_of, params_of};

use crate::{RtExpandParams, ThresholdMode};

// A threshold by the number of its kind. An unknown kind stands for a value that is out of range, and is no error of its own: number 4
// has to come behind the lower ones, which look at other input.
pub fn threshold(kind: u32, value: f32) -> ThresholdMode
    ensures { result ≡ threshold_of kind value }
{
    match kind {
        0 => ThresholdMode::Fixed(value),
        1 => ThresholdMode::AdaptiveNoise(value),
        _ => ThresholdMode::Fixed(-1.0),
    }
}

// The parameters of expansion, in the order of their fields, the threshold as two numbers: the C entries are handed them one by one.
pub fn expand_params(
    bin_pad: u32,
    smooth_sigma_sec: f32,
    min_prom_kind: u32,
    min_prom: f32,
    min_sep_sec: f32,
    min_width_sec: f32,
    fallback_if_frames_lt: u32,
    fallback_frac_width: f32,
    rt_pad_frames: u32,
) -> RtExpandParams
    ensures { result ≡ params_of bin_pad smooth_sigma_sec min_prom_kind min_prom min_sep_sec min_width_sec fallback_if_frames_lt fallback_frac_width rt_pad_frames }
{
    RtExpandParams {
        bin_pad,
        smooth_sigma_sec,
        min_prom: threshold(min_prom_kind, min_prom),
        min_sep_sec,
        min_width_sec,
        fallback_if_frames_lt,
        fallback_frac_width,
        rt_pad_frames,
    }
}
