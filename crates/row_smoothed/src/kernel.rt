// The weights of a smoothing.
ghost use Rattle.std.specs.Prelude.{◌≡◌};
ghost use Rattle.row_smoothing.specs.Smoothing.{normalised};

// Weights, none where a row is not smoothed, and the same divided by their sum.
#[derive(Clone, Copy)]
pub struct Kernel<'a> {
    pub weights: &'a [f32],
    pub divided: &'a [f32],
    pub ghost normal: { divided.now ≡ normalised weights.now },
}
