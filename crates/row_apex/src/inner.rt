// Steps over a row that the caller has checked.
ghost use Rattle.std.specs.Prelude.{◌≡◌, ◌≤◌, ◌<◌, ◌+◌, length};
ghost use Rattle.limits.specs.Limits.{exact_index};
ghost use Rattle.numeric.specs.Arith.{at};
ghost use Rattle.numeric.specs.Numeric.{max_f};
ghost use Rattle.row_apex.specs.Apex.{is_candidate, offset_of, left_of, right_of, up_to_higher, least, baseline, rise_of, none_below, Ground, left_foot, right_foot, part_way, left_crossing, right_crossing};

// How far an apex rises above its baseline, and the height half of that above the baseline.
#[derive(Clone, Copy)]
pub struct Rise {
    pub prominence: f32,
    pub half: f32,
}

// A low beside an apex, and how many samples were walked over to find it.
#[derive(Clone, Copy)]
pub struct Low {
    pub height: f32,
    pub steps: usize,
}

#[tactic(auto, unfolding(crate::specs::Apex::is_candidate))]
pub fn is_candidate(y: &[f32], i: usize) -> bool
    requires { (0 < i) × (i + 1 < length y.now) }
    ensures { result ≡ is_candidate y.now i }
{
    y[i] > y[i - 1] && y[i] >= y[i + 1]
}

// How far an apex lies from its sample.
#[tactic(auto, unfolding(crate::specs::Apex::offset_of), using(numeric::proofs::Patterns::minus_half))]
pub fn offset_of(y: &[f32], i: usize) -> f32
    requires { (0 < i) × (i + 1 < length y.now) }
    ensures { result ≡ offset_of y.now i }
{
    let offset = numeric::quad_subsample(y[i - 1], y[i], y[i + 1]);
    numeric::clamp(offset, -0.5, 0.5)
}

// Whether no reading is below a height.
#[tactic(auto, unfolding(crate::specs::Apex::none_below))]
fn none_below(y: &[f32], low: f32) -> bool
    ensures { result ≡ none_below low y.now }
{
    y.iter()
        .fold(true, |none, &reading| none & !(reading < low))
}

// A height that no reading is below: 0 for a row of readings that are not negative.
pub fn ground_of(y: &[f32]) -> f32
    ensures { Ground result y.now }
{
    if none_below(y, 0.0) {
        return 0.0;
    }
    -1.0 / 0.0
}

// The least reading from i on to the left, as far as the first one above it. No reading lies below the ground, so that the
// walk may end there. Row, ground and place are no struct: `rise_of` hands them to `walk_of` and that to this function, once each, and
// of the others that take a row and a place the walk to the right has another bound in the ground's place, and the rest none.
fn left_least(y: &[f32], ground: f32, i: usize) -> Low
    requires { (i < length y.now) × Ground ground y.now }
    ensures steps { result.steps ≤ i }
    ensures low { result.height ≡ least (at y.now i) (up_to_higher (at y.now i) (left_of y.now i)) }
{
    let apex = y[i];
    let mut m = apex;
    let mut l = i;
    // A `while`: the walk ends at the row's start, at the ground or at a higher reading, and its length is part of the answer. By
    // `rposition` of the higher reading and a `fold` up to it, which does not end at the ground, it takes 1.3 to 19 times as long.
    while l > 0 && ground < m {
        l -= 1;
        let v = y[l];
        if v < m {
            m = v;
        }
        if v > apex {
            break;
        }
    }
    Low {
        height: m,
        steps: i - l,
    }
}

// The same to the right, as far as it can count: what is not above the least of the left does not, so that the walk may end
// there.
fn right_least(y: &[f32], left: f32, i: usize) -> Low
    requires { i < length y.now }
    ensures steps { i + result.steps ≤ length y.now }
    ensures low { max_f left result.height ≡ max_f left (least (at y.now i) (up_to_higher (at y.now i) (right_of y.now i))) }
{
    let apex = y[i];
    let mut m = apex;
    let mut r = i + 1;
    // A `while` for the same reasons.
    while r < y.len() && !(m <= left) {
        let v = y[r];
        r += 1;
        if v < m {
            m = v;
        }
        if v > apex {
            break;
        }
    }
    Low {
        height: m,
        steps: r - i,
    }
}

// The baseline of an apex, by a walk to both sides.
#[tactic(auto, unfolding(crate::specs::Apex::baseline))]
pub fn walk_of(y: &[f32], ground: f32, i: usize) -> Low
    requires { (i < length y.now) × Ground ground y.now }
    ensures steps { result.steps ≤ length y.now }
    ensures base { result.height ≡ baseline y.now i }
{
    let left = left_least(y, ground, i);
    let right = right_least(y, left.height, i);
    Low {
        height: numeric::max(left.height, right.height),
        steps: left.steps + right.steps,
    }
}

// How far an apex rises above its baseline.
#[tactic(auto, unfolding(crate::specs::Apex::prominence, crate::specs::Apex::half_height))]
pub fn rise_from(y: &[f32], base: f32, i: usize) -> Rise
    requires { (i < length y.now) × (base ≡ baseline y.now i) }
    ensures { result ≡ rise_of y.now i }
{
    let prominence = y[i] - base;
    Rise {
        prominence,
        half: base + 0.5 * prominence,
    }
}

pub fn rise_of(y: &[f32], ground: f32, i: usize) -> Rise
    requires { (i < length y.now) × Ground ground y.now }
    ensures { result ≡ rise_of y.now i }
{
    rise_from(y, walk_of(y, ground, i).height, i)
}

#[tactic(auto, unfolding(crate::specs::Apex::part_way))]
fn share_of(h: f32, a: f32, b: f32) -> f32
    ensures { result ≡ part_way h a b }
{
    if b != a { (h - a) / (b - a) } else { 0.0 }
}

// A place in a row, and a height. That floats count the row's samples is asked where it crosses the height and not here: the feet are
// those of any row, and as a field of the struct it would be asked of their callers as well.
#[derive(Clone, Copy)]
pub struct Level<'a> {
    pub y: &'a [f32],
    pub h: f32,
    pub i: usize,
    pub ghost inside: { i < length y.now },
}

impl<'a> Level<'a> {
    // The nearest sample, from i on to the left, that is not above the height; the first one if there is none.
    pub fn left_foot(self) -> usize
        ensures { result ≡ left_foot self.entry.y.now self.entry.h self.entry.i }
    {
        let Level { y, h, i } = self;
        let mut w = i;
        // A `while`: by `rposition`, which proves as well, a walk over the few readings of a peak of noise takes 11.7 ns in place of 11.0,
        // and each apex has one.
        while w > 0 && y[w] > h {
            w -= 1;
        }
        w
    }

    // The same to the right.
    pub fn right_foot(self) -> usize
        ensures { result ≡ right_foot self.entry.y.now self.entry.h self.entry.i }
    {
        let Level { y, h, i } = self;
        y[i..]
            .iter()
            .position(|&v| !(v > h))
            .map_or(y.len() - 1, |n| i + n)
    }

    // Where the row crosses the height left of i, where the foot w is known.
    #[tactic(auto, unfolding(crate::specs::Apex::left_crossing))]
    pub fn left_crossing_from(self, w: usize) -> f32
        requires { (length self.y.now ≤ exact_index) × (w ≡ left_foot self.y.now self.h self.i) }
        ensures { result ≡ left_crossing self.entry.y.now self.entry.h self.entry.i }
    {
        let x = numeric::inner::of_index(w);
        if w < self.i {
            return x + share_of(self.h, self.y[w], self.y[w + 1]);
        }
        x
    }

    pub fn left_crossing(self) -> f32
        requires { length self.y.now ≤ exact_index }
        ensures { result ≡ left_crossing self.entry.y.now self.entry.h self.entry.i }
    {
        self.left_crossing_from(self.left_foot())
    }

    // Where the row crosses the height right of i, where the foot w is known.
    #[tactic(auto, unfolding(crate::specs::Apex::right_crossing))]
    pub fn right_crossing_from(self, w: usize) -> f32
        requires { (length self.y.now ≤ exact_index) × (w ≡ right_foot self.y.now self.h self.i) }
        ensures { result ≡ right_crossing self.entry.y.now self.entry.h self.entry.i }
    {
        if self.i < w {
            return numeric::inner::of_index(w - 1) + share_of(self.h, self.y[w - 1], self.y[w]);
        }
        numeric::inner::of_index(w)
    }

    pub fn right_crossing(self) -> f32
        requires { length self.y.now ≤ exact_index }
        ensures { result ≡ right_crossing self.entry.y.now self.entry.h self.entry.i }
    {
        self.right_crossing_from(self.right_foot())
    }
}
