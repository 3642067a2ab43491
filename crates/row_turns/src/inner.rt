// The turning points of a row that the caller has checked.
ghost use Rattle.std.specs.Prelude.{◌≡◌, ◌≤◌, length};
ghost use Rattle.limits.specs.Limits.{exact_index};
ghost use Rattle.numeric.specs.Plain.{AllPlain};
ghost use Rattle.row_turns.specs.Turns.{Turned};

// Writes the indices where the row turns to the front of `turns`: valleys at even places, candidates at odd ones. Answers how
// many candidates there are; the place behind the last one has the valley behind it. What else `turns` holds is open.
pub fn turns_of(y: &[f32], turns: &mut [u32]) -> usize
    requires { AllPlain y.now × (length y.now ≤ length turns.old) × (length y.now ≤ exact_index) }
    ensures { Turned y.now turns.new result }
{
    let n = y.len();
    if n < 3 {
        return 0;
    }
    turns[0] = 0;
    let mut up = y[0] < y[1];
    let mut j = usize::from(up);
    // Places: i is what is written, and j where. Both ends of the row are left out.
    for i in 1..n - 1 {
        turns[j] = i as u32;
        let on = y[i] < y[i + 1];
        if up != on {
            j += 1;
        }
        up = on;
    }
    if up {
        return j / 2;
    }
    turns[j] = (n - 1) as u32;
    j / 2
}
