// Steps over a time axis that the caller has checked.
ghost use Rattle.std.specs.Prelude.{◌≡◌, ◌&&◌, ◌≤◌, ◌<◌, min, length};
ghost use Rattle.row_params.specs.Params.{rising};
ghost use Rattle.limits.specs.Limits.{exact_index};
ghost use Rattle.rt_time.specs.Time.{time_between, time_at, never_falls};

// The smaller of two indices: std's, under a name that has a promise and wrong versions of its own.
pub fn smaller(a: usize, b: usize) -> usize
    ensures { result ≡ min a b }
{
    a.min(b)
}

// The time at the share f of the way from frame j to the next one.
#[tactic(auto, unfolding(crate::specs::Time::time_between))]
pub fn time_between(t: &[f32], j: usize, f: f32) -> f32
    requires { j < length t.now }
    ensures { result ≡ time_between t.now j f }
{
    let k = (j + 1).min(t.len() - 1);
    (1.0 - f) * t[j] + f * t[k]
}

// The time at a place between frames.
#[tactic(auto, unfolding(crate::specs::Time::time_at))]
pub fn t_at_index_frac(t: &[f32], x: f32) -> f32
    requires { length t.now ≤ exact_index }
    ensures { result ≡ time_at t.now x }
{
    if t.is_empty() {
        return 0.0;
    }
    if x <= 0.0 {
        return t[0];
    }
    let last = t.len() - 1;
    if x >= numeric::inner::of_index(last) {
        return t[last];
    }
    let j = (numeric::cast_sat(x) as usize).min(last);
    time_between(t, j, x - numeric::inner::of_index(j))
}

// Whether no time lies below the one before it.
pub fn never_falls(t: &[f32]) -> bool
    ensures { result ≡ never_falls t.now }
{
    row_params::inner::all_neighbours(t, |last, x| !(x < last))
}

// Whether the numbers of frames rise and their times do not fall: number 7 does not apply to such axes.
pub fn rising_axes(ids: &[u32], times: &[f32]) -> bool
    ensures { result ≡ (rising ids.now && never_falls times.now) }
{
    row_params::inner::is_rising(ids) & never_falls(times)
}
