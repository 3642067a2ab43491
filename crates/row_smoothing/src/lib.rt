// Gaussian smoothing of a row, with the weights lent.
#![tactic(auto)]

pub mod inner;

ghost use Rattle.std.specs.Prelude.{◌≡◌, ◌≤◌, cond, ◌++◌, eqb, length, take, drop};
ghost use Rattle.refusal.specs.Answers.{answer_by};
ghost use Rattle.refusal.specs.Numbered.{number_in, says};
ghost use Rattle.row_smoothing.specs.Smoothing.{smoothed, smooth_number};

use refusal::Refusal;

// Refuses with the lowest number that applies.
#[tactic(auto, unfolding(crate::specs::Smoothing::smooth_number, refusal::specs::Refusal::first_of))]
fn check(v: &[f32], weights: &[f32], scratch: usize) -> Result<(), Refusal>
    ensures { number_in result ≡ smooth_number v.now weights.now scratch }
{
    if v.len() > limits::MAX_SAMPLES {
        return Err(Refusal::Size);
    }
    if !numeric::inner::all_in_range(v, limits::MAX_READING) {
        return Err(Refusal::Reading);
    }
    if !inner::sound_weights(weights) {
        return Err(Refusal::Weights);
    }
    if scratch < v.len() {
        return Err(Refusal::Scratch);
    }
    Ok(())
}

// Fills `to` with the first readings of `from`. A loop: `copy_from_slice` of a list of any length is a call of `memmove`, which the C
// archives would need from outside.
fn copy(from: &[f32], to: &mut [f32])
    requires { length to.old ≤ length from.now }
    ensures { to.new ≡ take (length to.old) from.now }
{
    for (i, reading) in to.iter_mut().enumerate() {
        *reading = from[i];
    }
}

// Smooths v in place. The scratch then has the smoothed row at its front, and past it what it held.
pub fn smooth_vector_gaussian(
    v: &mut [f32],
    weights: &[f32],
    scratch: &mut [f32],
) -> Result<(), Refusal>
    ensures result_value { says result ≡ answer_by (smooth_number v.old weights.now (length scratch.old)) tt }
    ensures v_after { v.new
        ≡ cond (eqb (smooth_number v.old weights.now (length scratch.old)) 0)
        (smoothed weights.now v.old)
        v.old }
    ensures scratch_after { scratch.new
        ≡ cond (eqb (smooth_number v.old weights.now (length scratch.old)) 0)
        (smoothed weights.now v.old ++ drop (length v.old) scratch.old)
        scratch.old }
{
    check(v, weights, scratch.len())?;
    inner::smooth(v, weights, scratch);
    copy(scratch, v);
    Ok(())
}
