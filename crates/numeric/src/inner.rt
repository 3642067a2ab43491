// Steps of other crates, for arguments that they have checked.
ghost use Rattle.std.specs.Prelude.{◌≡◌, ◌≤◌, T, min, max, length, pos};
ghost use Rattle.std.specs.Float.{binary32};
ghost use Rattle.std.specs.Float.Ieee.{of_int, fits, of_bits, to_bits};
ghost use Rattle.limits.specs.Limits.{exact_index};
ghost use Rattle.numeric.specs.Numeric.{all_in_range};
ghost use Rattle.numeric.specs.Plain.{AllFit};

// An index as a float: exact.
pub fn of_index(n: usize) -> f32
    requires { n ≤ exact_index }
    ensures { result ≡ of_int binary32 (pos n) }
{
    n as f32
}

// Whether every reading lies from 0 to the float of the pattern `limit`, with a clear sign.
#[tactic(auto, unfolding(crate::specs::Numeric::all_in_range))]
pub fn all_in_range(y: &[f32], limit: u32) -> bool
    ensures { result ≡ all_in_range limit y.now }
{
    y.iter()
        .fold(true, |all, &x| all & super::in_range(x, limit))
}

// What is known of every f32, to be had of a reading: no code is left of it.
fn fit(x: f32)
    ensures { T (fits binary32 x) }
{}

// The pattern under which a float is kept, which tells it.
pub fn kept_word(x: f32) -> u32
    ensures word { result ≡ to_bits binary32 x }
    ensures tells { of_bits binary32 result ≡ x }
    ensures fit { T (fits binary32 x) }
{
    super::word_of(x)
}

// What is known of every f32, of all readings of a row.
pub fn all_fit(y: &[f32])
    ensures { AllFit y.now }
{
    for &x in y {
        fit(x);
    }
}

// The lower and the higher of two numbers: std's, under names that have promises and wrong versions of their own.
pub fn lower(a: u32, b: u32) -> u32
    ensures { result ≡ min a b }
{
    a.min(b)
}

pub fn higher(a: u32, b: u32) -> u32
    ensures { result ≡ max a b }
{
    a.max(b)
}
