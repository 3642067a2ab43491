// Steps over a row that the caller has checked.
ghost use Rattle.std.specs.Prelude.{◌≡◌, ◌≤◌, ◌<◌, ◌+◌, ◌-◌, min, length};
ghost use Rattle.limits.specs.Limits.{exact_index};
ghost use Rattle.row_area.specs.Area.{height_at, strip, within, head, whole, tail, across, between, area_f};

#[tactic(auto, unfolding(crate::specs::Area::strip))]
fn strip_of(p: f32, q: f32, w: f32) -> f32
    ensures { result ≡ strip p q w }
{
    0.5 * (p + q) * w
}

// The sum of a start and the whole segments between two samples, added one after another.
#[tactic(auto, unfolding(crate::specs::Area::whole), using(crate::proofs::Laws::whole_step))]
pub fn whole_segments(y: &[f32], from: usize, to: usize, start: f32) -> f32
    requires { to < length y.now }
    ensures { result ≡ whole y.now (to - from) from start }
{
    let mut area = start;
    // Places: where `to` is not behind `from` there is no segment, and a slice of neighbours from one to the other could not be taken.
    for s in from..to {
        area += 0.5 * (y[s] + y[s + 1]);
    }
    area
}

// A row that has a segment, and whose samples can be counted in floats.
#[derive(Clone, Copy)]
struct Segments<'a> {
    y: &'a [f32],
    ghost counted: { (2 ≤ length y.now) × (length y.now ≤ exact_index) },
}

impl<'a> Segments<'a> {
    #[tactic(auto, unfolding(crate::specs::Area::height_at))]
    fn height_at(self, s: usize, t: f32) -> f32
        requires { s + 1 < length self.y.now }
        ensures { result ≡ height_at self.entry.y.now s t }
    {
        numeric::lerp(self.y[s], self.y[s + 1], t)
    }

    #[tactic(auto, unfolding(crate::specs::Area::within))]
    fn within(self, s: usize, x0: f32, x1: f32) -> f32
        requires { s + 1 < length self.y.now }
        ensures { result ≡ within self.entry.y.now s x0 x1 }
    {
        let start = numeric::inner::of_index(s);
        let t0 = x0 - start;
        let t1 = x1 - start;
        let y0 = self.height_at(s, t0);
        let y1 = self.height_at(s, t1);
        strip_of(y0, y1, t1 - t0)
    }

    #[tactic(auto, unfolding(crate::specs::Area::head))]
    fn head(self, s: usize, x0: f32) -> f32
        requires { s + 1 < length self.y.now }
        ensures { result ≡ head self.entry.y.now s x0 }
    {
        let t0 = x0 - numeric::inner::of_index(s);
        let y0 = self.height_at(s, t0);
        0.0 + strip_of(y0, self.y[s + 1], 1.0 - t0)
    }

    #[tactic(auto, unfolding(crate::specs::Area::tail))]
    fn tail(self, s: usize, x1: f32, area: f32) -> f32
        ensures { result ≡ tail self.entry.y.now s x1 area }
    {
        if s <= self.y.len() - 2 {
            let t1 = x1 - numeric::inner::of_index(s);
            let y1 = self.height_at(s, t1);
            return area + strip_of(self.y[s], y1, t1);
        }
        area
    }

    #[tactic(auto, unfolding(crate::specs::Area::across))]
    fn across(self, s0: usize, s1: usize, x0: f32, x1: f32) -> f32
        requires { s0 + 1 < length self.y.now }
        ensures { result ≡ across self.entry.y.now s0 s1 x0 x1 }
    {
        let to = s1.min(self.y.len() - 2);
        let a = whole_segments(self.y, s0 + 1, to, self.head(s0, x0));
        self.tail(s1, x1, a)
    }

    // With guesses of the samples at or before x0 and x1.
    #[tactic(auto, unfolding(crate::specs::Area::between))]
    fn between(self, x0: f32, x1: f32, g0: usize, g1: usize) -> f32
        ensures { result ≡ between self.entry.y.now x0 x1 }
    {
        if x1 <= x0 {
            return 0.0;
        }
        let i0 = rounding::near::cast_near(x0, g0) as usize;
        let i1 = rounding::near::cast_near(x1, g1) as usize;
        let s0 = i0.min(self.y.len() - 2);
        if i0 == i1 {
            return self.within(s0, x0, x1);
        }
        self.across(s0, i1, x0, x1)
    }
}

// The area between two places. The guesses g0 and g1 of the samples at or before them only save time.
#[tactic(auto, unfolding(crate::specs::Area::area_f))]
pub fn trapezoid_area_near(y: &[f32], x0: f32, x1: f32, g0: usize, g1: usize) -> f32
    requires { length y.now ≤ exact_index }
    ensures { result ≡ area_f y.now x0 x1 }
{
    if y.len() < 2 {
        return 0.0;
    }
    let last = numeric::inner::of_index(y.len() - 1);
    Segments { y }.between(
        numeric::clamp(x0, 0.0, last),
        numeric::clamp(x1, 0.0, last),
        g0,
        g1,
    )
}

pub fn trapezoid_area_fractional(y: &[f32], x0: f32, x1: f32) -> f32
    requires { length y.now ≤ exact_index }
    ensures { result ≡ area_f y.now x0 x1 }
{
    trapezoid_area_near(y, x0, x1, 0, 0)
}
