// Whole numbers next to a place, where one is guessed: a guess that holds takes two comparisons, any other the long way.
ghost use Rattle.std.specs.Prelude.{◌≡◌, true};
ghost use Rattle.numeric.specs.Arith.{𝟎};
ghost use Rattle.numeric.specs.Numeric.{clamp_f, cast_f};
ghost use Rattle.rounding.specs.Rounding.{floor_f, ceil_f, round_f};
ghost use Rattle.rounding.specs.Guess.{Whole, Floor};

// Whether g is the whole number at most x. A guess of 0 is not looked at, here and below. One function for the three would take both bounds
// and whether each of them counts, and share the first test alone.
fn is_floor(x: f32, g: usize) -> bool
    ensures { result ≡ true → Floor x g }
{
    if g == 0 || g >= limits::EXACT_INDEX {
        return false;
    }
    numeric::inner::of_index(g) <= x && x < numeric::inner::of_index(g + 1)
}

// Whether g is the whole number at least x.
fn is_ceil(x: f32, g: usize) -> bool
    ensures { result ≡ true → Whole (ceil_f x) g }
{
    if g == 0 || g >= limits::EXACT_INDEX {
        return false;
    }
    numeric::inner::of_index(g - 1) < x && x <= numeric::inner::of_index(g)
}

// Whether g is the whole number nearest to x.
fn is_round(x: f32, g: usize) -> bool
    ensures { result ≡ true → Whole (round_f x) g }
{
    if g == 0 || g >= 8388608 {
        return false;
    }
    numeric::inner::of_index(g - 1) + 0.5 <= x && x < numeric::inner::of_index(g) + 0.5
}

// Rust's `x as u32`.
pub fn cast_near(x: f32, g: usize) -> u32
    ensures { result ≡ cast_f x }
{
    if is_floor(x, g) {
        return g as u32;
    }
    numeric::cast_sat(x)
}

// Rust's `x.round() as u32`.
pub fn round_near(x: f32, g: usize) -> u32
    ensures { result ≡ cast_f (round_f x) }
{
    if is_round(x, g) {
        return g as u32;
    }
    numeric::cast_sat(super::round(x))
}

fn sample_at(x: f32, last: f32) -> u32
    ensures { result ≡ cast_f (clamp_f x 𝟎 last) }
{
    numeric::cast_sat(numeric::clamp(x, 0.0, last))
}

// Rust's `x.floor().clamp(0.0, last) as u32`. One step for this and the next would take the test and the function, and be longer than
// either.
pub fn floor_sample(x: f32, g: usize, last: f32) -> u32
    ensures { result ≡ cast_f (clamp_f (floor_f x) 𝟎 last) }
{
    if is_floor(x, g) {
        if numeric::inner::of_index(g) <= last {
            return g as u32;
        }
    }
    sample_at(super::floor(x), last)
}

// Rust's `x.ceil().clamp(0.0, last) as u32`.
pub fn ceil_sample(x: f32, g: usize, last: f32) -> u32
    ensures { result ≡ cast_f (clamp_f (ceil_f x) 𝟎 last) }
{
    if is_ceil(x, g) {
        if numeric::inner::of_index(g) <= last {
            return g as u32;
        }
    }
    sample_at(super::ceil(x), last)
}
