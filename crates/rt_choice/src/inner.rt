// The choice among apexes that lie close in time.
ghost use Rattle.std.specs.Prelude.{◌≡◌, ◌++◌, ℕ, ◌≤◌, ◌<◌, length, drop, get_or};
ghost use Rattle.std.specs.Float.Ieee.{lt};
ghost use Rattle.numeric.specs.Arith.{◌⊖◌};
ghost use Rattle.numeric.specs.Numeric.{abs_f};
ghost use Rattle.rt_choice.specs.Chosen.{chosen};
ghost use Rattle.rt_choice.specs.Times.{near_in_time, time_of};

// The time at place p of a table of patterns.
fn time_of(times: &[u32], p: u32) -> f32
    requires { p < length times.now }
    ensures { result ≡ time_of times.now p }
{
    numeric::float_of(times[p as usize])
}

// Whether two times differ by less than `sep`. The higher of the difference and its opposite is taken without a branch on the sign.
fn is_near(a: f32, b: f32, sep: f32) -> bool
    ensures { result ≡ lt (abs_f (a ⊖ b)) sep }
{
    let d = a - b;
    numeric::max(d, -d) < sep
}

// Chooses, in their order, the apexes that lie at least `sep` from each one chosen before: an apex is a place of the table of
// times. The chosen ones stand at the front of `out` then, and the answer is how many there are. docs/SCOPE.md fixes the label.
pub fn choose(order: &[u32], times: &[u32], sep: f32, out: &mut [u32]) -> usize
    requires { (length order.now ≤ length out.old) × ((k : ℕ) → k < length order.now → get_or order.now k 0 < length times.now) }
    ensures count { result ≡ length (chosen (near_in_time (time_of times.now) sep) order.now) }
    ensures front { out.new ≡ chosen (near_in_time (time_of times.now) sep) order.now ++ drop result out.old }
{
    // how many are chosen is the place of the next one, and the answer
    let mut n = 0usize;
    'outer: for &p in order {
        let time = time_of(times, p);
        for &q in &out[..n] {
            if is_near(time, time_of(times, q), sep) {
                continue 'outer;
            }
        }
        out[n] = p;
        n += 1;
    }
    n
}
