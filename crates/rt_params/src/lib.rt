// What expansion along the retention time is told: thresholds and parameters.
#![tactic(auto)]

pub mod given;

ghost use Rattle.std.specs.Prelude.{◌≡◌};
ghost use Rattle.rt_params.specs.Modes.{effective_f, default_mode, sound_mode};
ghost use Rattle.rt_params.specs.Expand.{defaults, legacy_defaults, with_mode, sound_expand};

// The bit pattern of the highest fraction: 1.
pub const MAX_FRACTION: u32 = 0x3f80_0000;

// How the floor for heights and prominences of a retention trace is found: a value that is given, or a multiple of the
// trace's noise.
#[derive(Clone, Copy)]
pub enum ThresholdMode {
    Fixed(f32),
    AdaptiveNoise(f32),
}

impl ThresholdMode {
    pub fn fixed(value: f32) -> Self
        ensures { result ≡ ThresholdMode.Fixed value }
    {
        ThresholdMode::Fixed(value)
    }

    pub fn adaptive(sigma_multiplier: f32) -> Self
        ensures { result ≡ ThresholdMode.AdaptiveNoise sigma_multiplier }
    {
        ThresholdMode::AdaptiveNoise(sigma_multiplier)
    }

    // The floor of a trace with a noise.
    #[tactic(auto, unfolding(crate::specs::Modes::effective_f))]
    pub fn effective(self, noise: f32) -> f32
        ensures { result ≡ effective_f self noise }
    {
        match self {
            ThresholdMode::Fixed(v) => {
                if noise > 0.0 {
                    numeric::max(v, 3.0 * noise)
                } else {
                    v
                }
            }
            ThresholdMode::AdaptiveNoise(s) => { if noise > 0.0 { s * noise } else { 1.0 } }
        }
    }

    // Whether number 4 does not apply to it.
    #[tactic(auto, unfolding(crate::specs::Modes::sound_mode))]
    pub fn is_sound(self) -> bool
        ensures { result ≡ sound_mode self }
    {
        let (ThresholdMode::Fixed(x) | ThresholdMode::AdaptiveNoise(x)) = self;
        numeric::in_range(x, limits::MAX_HEIGHT)
    }
}

impl Default for ThresholdMode {
    ghost is_default = { λ x. x ≡ default_mode };

    fn default() -> Self {
        ThresholdMode::AdaptiveNoise(3.0)
    }
}

// The parameters of expansion. `bin_pad` widens a peak's bins on either side and `rt_pad_frames` its frames;
// `smooth_sigma_sec` is the width of the smoothing in seconds, from which the first call reckons the one in frames; `min_prom`
// gives the floor; `min_sep_sec` is the least separation of two apexes and `min_width_sec` the least width of one. A window of
// fewer frames than `fallback_if_frames_lt` has one peak, that of the fallback, which takes its ends at the share
// `fallback_frac_width` of the highest reading. Smoothing truncation is not passed: weights come from the caller.
#[derive(Clone, Copy)]
pub struct RtExpandParams {
    pub bin_pad: u32,
    pub smooth_sigma_sec: f32,
    pub min_prom: ThresholdMode,
    pub min_sep_sec: f32,
    pub min_width_sec: f32,
    pub fallback_if_frames_lt: u32,
    pub fallback_frac_width: f32,
    pub rt_pad_frames: u32,
}

impl Default for RtExpandParams {
    ghost is_default = { λ x. x ≡ defaults };

    fn default() -> Self {
        RtExpandParams {
            bin_pad: 2,
            smooth_sigma_sec: 0.5,
            min_prom: ThresholdMode::default(),
            min_sep_sec: 1.0,
            min_width_sec: 0.5,
            fallback_if_frames_lt: 3,
            fallback_frac_width: 0.25,
            rt_pad_frames: 2,
        }
    }
}

impl RtExpandParams {
    // The defaults with a fixed floor, by the Rust's name.
    pub fn legacy_defaults() -> Self
        ensures { result ≡ legacy_defaults }
    {
        RtExpandParams::default().with_fixed_prom(100.0)
    }

    pub fn with_fixed_prom(self, prom: f32) -> Self
        ensures { result ≡ with_mode self (ThresholdMode.Fixed prom) }
    {
        RtExpandParams {
            min_prom: ThresholdMode::Fixed(prom),
            ..self
        }
    }

    pub fn with_adaptive_prom(self, sigma_multiplier: f32) -> Self
        ensures { result ≡ with_mode self (ThresholdMode.AdaptiveNoise sigma_multiplier) }
    {
        RtExpandParams {
            min_prom: ThresholdMode::AdaptiveNoise(sigma_multiplier),
            ..self
        }
    }

    // Whether number 4 does not apply to them.
    #[tactic(auto, unfolding(crate::specs::Expand::sound_expand))]
    pub fn is_sound(self) -> bool
        ensures { result ≡ sound_expand self }
    {
        (self.bin_pad <= limits::MAX_COUNT)
            & numeric::in_range(self.smooth_sigma_sec, limits::MAX_SECONDS)
            & self.min_prom.is_sound()
            & numeric::in_range(self.min_sep_sec, limits::MAX_SECONDS)
            & numeric::in_range(self.min_width_sec, limits::MAX_SECONDS)
            & (self.fallback_if_frames_lt <= limits::MAX_COUNT)
            & numeric::in_range(self.fallback_frac_width, MAX_FRACTION)
            & (self.rt_pad_frames <= limits::MAX_COUNT)
    }
}
