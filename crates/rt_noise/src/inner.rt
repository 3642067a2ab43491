// Steps over any trace and any time axis: nothing is asked of length or values.
ghost use Rattle.std.specs.Prelude.{◌≡◌};
ghost use Rattle.rt_noise.specs.Noise.{noise_f, dt_f};

// The middle distance from the middle reading, times 1.4826.
#[tactic(auto, unfolding(crate::specs::Noise::noise_f), using(crate::proofs::NoiseLaws::middle_reading, crate::proofs::NoiseLaws::middle_distance))]
pub fn robust_noise_mad(signal: &[f32]) -> f32
    ensures { result ≡ noise_f signal.now }
{
    if signal.len() < 3 {
        return 0.0;
    }
    let h = signal.len() / 2;
    let middle = sort_rank::inner::at_rank(signal, h);
    sort_rank::inner::distance_at_rank(signal, middle, h) * 1.4826
}

// The middle time step, no shorter than a millisecond.
#[tactic(auto, unfolding(crate::specs::Noise::dt_f), using(crate::proofs::NoiseLaws::middle_step))]
pub fn effective_dt(times: &[f32]) -> f32
    ensures { result ≡ dt_f times.now }
{
    if times.len() < 2 {
        return 1.0;
    }
    let h = (times.len() - 1) / 2;
    numeric::max(sort_rank::inner::step_at_rank(times, h), 1e-3)
}
