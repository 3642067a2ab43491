// The noise of a trace as a C function.
ghost use Rattle.std.specs.Prelude.{◌≡◌};
ghost use Rattle.refusal.specs.Numbered.{says};
ghost use Rattle.c_word.specs.Word.{word_of};
ghost use Rattle.c_rt.specs.Noise.{pattern, noise_word};

use refusal::Refusal;

// The word of a noise, whose bit pattern stands where a count stands elsewhere, or of the number that refuses.
#[tactic(auto, unfolding(c_word::specs::Word::as_word))]
fn word_of(answer: Result<f32, Refusal>) -> u64
    ensures { result ≡ word_of pattern (says answer) }
{
    let pattern = answer.map(|v| numeric::word_of(v) as usize);
    c_word::word_of(pattern)
}

// Answers 64 times the bit pattern of the noise, or a number.
#[unsafe(no_mangle)]
pub extern "C" fn rubzolena_robust_noise_mad(signal: &[f32]) -> u64
    ensures { result ≡ noise_word signal.now }
{
    let answer = rt_noise::robust_noise_mad(signal);
    word_of(answer)
}
