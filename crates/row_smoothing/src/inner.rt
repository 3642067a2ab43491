// Steps of other crates, for arguments that they have checked. Readings and weights, `src` and `u`, are no struct: of the eight functions
// that take both no two ask the same of their lengths, so that a struct would have nothing to promise.
ghost use Rattle.std.specs.Prelude.{◌≡◌, ◌++◌, map, ◌≤◌, ◌<◌, ◌+◌, ◌-◌, ◌*◌, ◌/◌, length, drop};
ghost use Rattle.numeric.specs.Arith.{◌⊘◌, 𝟎, at};
ghost use Rattle.limits.specs.Limits.{max_weights};
ghost use Rattle.row_smoothing.specs.Smoothing.{tabulate, sum_from, normalised, radius, weighted, smoothed_at, smoothed, sound_weights};
ghost use Rattle.row_smoothing.specs.Steps.{filled, added};

// ---- one pass over a list

#[tactic(auto, unfolding(crate::specs::Smoothing::sum_from))]
fn sum_of(weights: &[f32]) -> f32
    ensures { result ≡ sum_from 𝟎 weights.now }
{
    weights.iter().fold(0.0, |sum, &w| sum + w)
}

fn divide(dst: &mut [f32], by: f32)
    ensures { dst.new ≡ map (λ a. a ⊘ by) dst.old }
{
    for x in dst.iter_mut() {
        *x /= by;
    }
}

#[tactic(auto, using(crate::proofs::Laws::tab_replicate))]
fn clear(dst: &mut [f32])
    ensures { dst.new ≡ tabulate (length dst.old) (λ i. 𝟎) }
{
    dst.fill(0.0);
}

// ---- where every weight meets a reading

fn add_one(src: &[f32], u: &[f32], k: usize, dst: &mut [f32])
    requires { (k < length u.now) × (length dst.old + k ≤ length src.now) }
    ensures { dst.new ≡ added src.now (at u.now k) k dst.old }
{
    let w = u[k];
    // Not `zip`: of a list that a `zip` writes through, the proof knows the length alone.
    for (i, sum) in dst.iter_mut().enumerate() {
        *sum += w * src[i + k];
    }
}

// Four weights in one pass, so that a sum is read and written once for the four.
fn add_four(src: &[f32], u: &[f32], k: usize, dst: &mut [f32])
    requires { (k + 4 ≤ length u.now) × (length dst.old + k + 3 ≤ length src.now) }
    ensures { dst.new
        ≡ added src.now (at u.now (k + 3)) (k + 3)
        (added src.now (at u.now (k + 2)) (k + 2)
        (added src.now (at u.now (k + 1)) (k + 1)
        (added src.now (at u.now k) k dst.old))) }
{
    let k1 = k + 1;
    let k2 = k + 2;
    let k3 = k + 3;
    let w0 = u[k];
    let w1 = u[k1];
    let w2 = u[k2];
    let w3 = u[k3];
    // Not `zip`, as in `add_one`.
    for (i, sum) in dst.iter_mut().enumerate() {
        *sum = *sum + w0 * src[i + k] + w1 * src[i + k1] + w2 * src[i + k2] + w3 * src[i + k3];
    }
}

// The sums of all weights times the readings that they meet, without the ends.
fn add_all(src: &[f32], u: &[f32], dst: &mut [f32])
    requires { length dst.old + length u.now / 2 * 2 ≤ length src.now }
    ensures { dst.new ≡ tabulate (length dst.old) (λ j. weighted u.now src.now (j + radius u.now) (length u.now)) }
{
    clear(dst);
    // Places: that of a weight is also that of the first reading that it meets.
    let fours = u.len() / 4;
    for k in 0..fours {
        add_four(src, u, 4 * k, dst);
    }
    for k in 4 * fours..u.len() {
        add_one(src, u, k, dst);
    }
}

// The smoothed samples without the ends: one norm for all.
fn middle_part(src: &[f32], u: &[f32], dst: &mut [f32])
    requires { length dst.old + length u.now / 2 * 2 ≡ length src.now }
    ensures { dst.new ≡ tabulate (length dst.old) (λ j. smoothed_at u.now src.now (j + radius u.now)) }
{
    add_all(src, u, dst);
    let norm = sum_of(u);
    if norm > 0.0 {
        divide(dst, norm);
    } else {
        clear(dst);
    }
}

// The same, in the row's own places.
fn middle(src: &[f32], u: &[f32], dst: &mut [f32])
    requires { (length u.now / 2 * 2 ≤ length src.now) × (length src.now ≤ length dst.old) }
    ensures { dst.new ≡ filled (smoothed_at u.now src.now) (radius u.now) (length src.now - radius u.now) dst.old }
{
    let r = u.len() / 2;
    let e = src.len() - r;
    middle_part(src, u, &mut dst[r..e]);
}

// ---- at the ends

// The weights that meet a reading: from the first that does to the end of the weights or of the row.
fn end_at(src: &[f32], u: &[f32], i: usize) -> f32
    requires { i < length src.now }
    ensures { result ≡ smoothed_at u.now src.now i }
{
    let r = u.len() / 2;
    let left = r.saturating_sub(i);
    let mut sum = 0.0f32;
    let mut norm = 0.0f32;
    for (&w, &reading) in u[left..].iter().zip(&src[i + left - r..]) {
        sum += w * reading;
        norm += w;
    }
    if norm > 0.0 { sum / norm } else { 0.0 }
}

// The samples from `from` to `to`, each with its own norm.
fn ends(src: &[f32], u: &[f32], from: usize, to: usize, dst: &mut [f32])
    requires { (from ≤ to) × (to ≤ length src.now) × (length src.now ≤ length dst.old) }
    ensures { dst.new ≡ filled (smoothed_at u.now src.now) from to dst.old }
{
    let part = &mut dst[from..to];
    for (j, sample) in part.iter_mut().enumerate() {
        *sample = end_at(src, u, from + j);
    }
}

// ---- the whole row

// The smoothed row, for weights u that are divided by their sum.
pub fn smooth_by(src: &[f32], u: &[f32], dst: &mut [f32])
    requires { length src.now ≤ length dst.old }
    ensures { dst.new ≡ tabulate (length src.now) (smoothed_at u.now src.now) ++ drop (length src.now) dst.old }
{
    let n = src.len();
    let r = u.len() / 2;
    if n <= r * 2 {
        ends(src, u, 0, n, dst);
        return;
    }
    ends(src, u, 0, r, dst);
    middle(src, u, dst);
    ends(src, u, n - r, n, dst);
}

// The weights divided by their sum.
#[tactic(auto, unfolding(crate::specs::Smoothing::normalised))]
pub fn normalise(weights: &[f32], u: &mut [f32])
    requires { length weights.now ≡ length u.old }
    ensures { u.new ≡ normalised weights.now }
{
    u.copy_from_slice(weights);
    divide(u, sum_of(weights));
}

// The smoothed row, at the front of dst.
pub fn smooth(src: &[f32], weights: &[f32], dst: &mut [f32])
    requires { (length src.now ≤ length dst.old) × (length weights.now ≤ max_weights) }
    ensures { dst.new ≡ smoothed weights.now src.now ++ drop (length src.now) dst.old }
{
    let mut u = [0f32; limits::MAX_WEIGHTS];
    let m = weights.len();
    normalise(weights, &mut u[..m]);
    smooth_by(src, &u[..m], dst);
}

// ---- what weights must be

#[tactic(auto, unfolding(crate::specs::Smoothing::sound_weights))]
pub fn sound_weights(weights: &[f32]) -> bool
    ensures { result ≡ sound_weights weights.now }
{
    let m = weights.len();
    if m % 2 == 0 || m > limits::MAX_WEIGHTS {
        return false;
    }
    numeric::inner::all_in_range(weights, limits::MAX_WEIGHT)
        && numeric::word_of(weights[m / 2]) == limits::MAX_WEIGHT
}
