// Rust's floor, ceil and round of an f32: total.
#![tactic(auto)]

pub mod near;

ghost use Rattle.std.specs.Prelude.{◌≡◌, true};
ghost use Rattle.std.specs.Float.{binary32};
ghost use Rattle.std.specs.Float.Ieee.{lt, of_bits};
ghost use Rattle.rounding.specs.Rounding.{floor_f, ceil_f, round_f};

// Floor, ceil and round are the port's own, as document 01 has them. Core's take 4.1 ns in place of 2.9.

pub fn floor(x: f32) -> f32
    ensures { result ≡ floor_f x }
{
    if x > 0.0 {
        return positive_floor(x);
    }
    if x < 0.0 {
        return -positive_ceil(-x);
    }
    x
}

pub fn ceil(x: f32) -> f32
    ensures { result ≡ ceil_f x }
{
    if x > 0.0 {
        return positive_ceil(x);
    }
    if x < 0.0 {
        return -positive_floor(-x);
    }
    x
}

// A half goes away from zero.
pub fn round(x: f32) -> f32
    ensures { result ≡ round_f x }
{
    if x > 0.0 {
        return positive_round(x);
    }
    if x < 0.0 {
        return -positive_round(-x);
    }
    x
}

// The three for an x above zero. From 2^23 on a float is whole. Below, adding 2^23 leaves no place for a fraction.
fn positive_floor(x: f32) -> f32
    ensures { lt (of_bits binary32 0) x ≡ true → result ≡ floor_f x }
{
    if x < 8388608.0 {
        let n = x + 8388608.0 - 8388608.0;
        let less = n - 1.0;
        if x < n { less } else { n }
    } else {
        x
    }
}

fn positive_ceil(x: f32) -> f32
    ensures { lt (of_bits binary32 0) x ≡ true → result ≡ ceil_f x }
{
    if x < 8388608.0 {
        let n = positive_floor(x);
        let more = n + 1.0;
        if n < x { more } else { n }
    } else {
        x
    }
}

fn positive_round(x: f32) -> f32
    ensures { lt (of_bits binary32 0) x ≡ true → result ≡ round_f x }
{
    if x < 8388608.0 {
        let n = positive_floor(x);
        let more = n + 1.0;
        if x < n + 0.5 { n } else { more }
    } else {
        x
    }
}
