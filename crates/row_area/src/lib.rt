// The area under a row of readings.
#![tactic(auto)]

pub mod inner;

ghost use Rattle.std.specs.Prelude.{◌≡◌};
ghost use Rattle.refusal.specs.Answers.{answer_by};
ghost use Rattle.refusal.specs.Numbered.{number_in, says};
ghost use Rattle.row_area.specs.Area.{area_f, area_number};

use refusal::Refusal;

// Refuses with the lowest number that applies.
#[tactic(auto, unfolding(crate::specs::Area::area_number, refusal::specs::Refusal::first_of))]
fn check(y: &[f32], x0: f32, x1: f32) -> Result<(), Refusal>
    ensures { number_in result ≡ area_number y.now x0 x1 }
{
    if y.len() > limits::MAX_SAMPLES {
        return Err(Refusal::Size);
    }
    if !numeric::inner::all_in_range(y, limits::MAX_READING) {
        return Err(Refusal::Reading);
    }
    if !(numeric::in_range(x0, limits::MAX_PLACE) & numeric::in_range(x1, limits::MAX_PLACE)) {
        return Err(Refusal::Value);
    }
    Ok(())
}

pub fn trapezoid_area_fractional(y: &[f32], x0: f32, x1: f32) -> Result<f32, Refusal>
    ensures { says result ≡ answer_by (area_number y.now x0 x1) (area_f y.now x0 x1) }
{
    check(y, x0, x1)?;
    Ok(inner::trapezoid_area_fractional(y, x0, x1))
}
