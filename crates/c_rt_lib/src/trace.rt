// The noise of a trace.
ghost use Rattle.std.specs.Prelude.{◌≡◌};
ghost use Rattle.c_rt.specs.Noise.{noise_word};

// Answers 64 times the bit pattern of the noise, or a number.
#[unsafe(no_mangle)]
pub extern "C" fn rubzolena_robust_noise_mad(signal: &[f32]) -> u64
    ensures { result ≡ noise_word signal.now }
{
    c_rt::trace::rubzolena_robust_noise_mad(signal)
}
