// The noise of a trace.
#![tactic(auto)]

pub mod inner;

ghost use Rattle.std.specs.Prelude.{◌≡◌};
ghost use Rattle.refusal.specs.Answers.{answer_by};
ghost use Rattle.refusal.specs.Numbered.{number_in, says};
ghost use Rattle.rt_noise.specs.Noise.{noise_f, noise_number};

use refusal::Refusal;

// Refuses with the lowest number that applies.
#[tactic(auto, unfolding(crate::specs::Noise::noise_number, refusal::specs::Refusal::first_of))]
fn check(signal: &[f32]) -> Result<(), Refusal>
    ensures { number_in result ≡ noise_number signal.now }
{
    if signal.len() > limits::MAX_SAMPLES {
        return Err(Refusal::Size);
    }
    if !numeric::inner::all_in_range(signal, limits::MAX_HEIGHT) {
        return Err(Refusal::Reading);
    }
    Ok(())
}

pub fn robust_noise_mad(signal: &[f32]) -> Result<f32, Refusal>
    ensures { says result ≡ answer_by (noise_number signal.now) (noise_f signal.now) }
{
    check(signal)?;
    Ok(inner::robust_noise_mad(signal))
}
