// Measures over a row that the caller has checked.
ghost use Rattle.std.specs.Prelude.{◌≡◌, true, [], ◌∷◌, ◌++◌, ◌≤◌, ◌<◌, ◌+◌, ◌-◌, ◌*◌, length, drop};
ghost use Rattle.std.specs.Float.{binary32};
ghost use Rattle.std.specs.Float.Ieee.{of_bits};
ghost use Rattle.limits.specs.Limits.{exact_index};
ghost use Rattle.row_spans.specs.Span.{Within, width_of, reach_of, span_of, if_wide};
ghost use Rattle.row_spans.specs.Memo.{entry, word_of, kept_span, Memo, Looked};
ghost use Rattle.row_spans.specs.Steps.{Open, Between, Kept};

use row_apex::inner::Level;

// The words of a kept span.
const ENTRY: usize = 9;

// A span between feet that are farther apart than this is kept.
const LONG: usize = 16;

// An apex of a row at a height: the row that is searched, the raw one that areas are taken of, the height and the place.
#[derive(Clone, Copy)]
pub struct Apex<'a> {
    pub y: &'a [f32],
    pub z: &'a [f32],
    pub h: f32,
    pub i: usize,
    pub ghost within: { Within (length y.now) (length z.now) i },
}

// The feet of an apex at a height, the crossings and the width between them, rounded.
#[derive(Clone, Copy)]
pub struct Reach {
    pub left_foot: usize,
    pub right_foot: usize,
    pub left_x: f32,
    pub right_x: f32,
    pub width: u32,
}

// What is measured of an apex at a height.
#[derive(Clone, Copy)]
pub struct Span {
    pub left: u32,
    pub right: u32,
    pub width: u32,
    pub left_x: f32,
    pub right_x: f32,
    pub area: f32,
}

impl Span {
    // The span, where it is wide enough.
    fn if_wide(self, least: u32) -> Option<Span>
        ensures { result ≡ if_wide least self }
    {
        (self.width >= least).then_some(self)
    }
}

// What is seen of an apex: its span, where it is wide enough, and how many spans the memo has then. The memo and its depth are no struct
// with methods: so, and with the rows of the search in another, a row of noise takes 3 to 5 % longer.
#[derive(Clone, Copy)]
pub struct Look {
    pub span: Option<Span>,
    pub depth: usize,
}

// A guess of a width between feet that are w apart: the crossings lie less than a sample inside of them.
fn guess_of(x: f32, w: usize) -> usize
    requires { w ≤ exact_index }
{
    if w < 2 {
        return w;
    }
    let most = numeric::inner::of_index(w);
    if x < most - 1.5 {
        return w - 2;
    }
    if x < most - 0.5 { w - 1 } else { w }
}

// The width between two crossings, rounded, where the feet are w apart.
#[tactic(auto, unfolding(crate::specs::Span::width_of))]
fn width_of(from: f32, to: f32, w: usize) -> u32
    requires { w ≤ exact_index }
    ensures { result ≡ width_of from to }
{
    let x = numeric::max(to - from, 0.0);
    rounding::near::round_near(x, guess_of(x, w))
}

// How many of the first spans are still open at i: those behind them end at or before it.
fn still_open(memo: &[u32], depth: usize, i: usize) -> usize
    requires { depth * entry ≤ length memo.now }
    ensures { Open memo.now depth i result }
{
    let mut d = depth;
    // A `while`: it ends at the first span that is open, and how many are left is the answer.
    while d > 0 && memo[(d - 1) * ENTRY + 2] as usize <= i {
        d -= 1;
    }
    d
}

// The span at place t.
#[tactic(auto, unfolding(crate::specs::Memo::kept_span))]
fn kept_span(memo: &[u32], t: usize) -> Span
    requires { t * entry + entry ≤ length memo.now }
    ensures { result ≡ kept_span memo.now t }
{
    let at = t * ENTRY;
    Span {
        left: memo[at + 3],
        right: memo[at + 4],
        width: memo[at + 5],
        left_x: numeric::float_of(memo[at + 6]),
        right_x: numeric::float_of(memo[at + 7]),
        area: numeric::float_of(memo[at + 8]),
    }
}

// Keeps a span at place t: its height, its feet, and what was measured.
fn keep(memo: &mut [u32], t: usize, h: f32, from: usize, to: usize, s: Span)
    requires { (t * entry + entry ≤ length memo.old) × (from ≤ exact_index) × (to ≤ exact_index) }
    ensures { Kept h from to s t memo.old memo.new }
{
    let height = numeric::inner::kept_word(h);
    let left_x = numeric::inner::kept_word(s.left_x);
    let right_x = numeric::inner::kept_word(s.right_x);
    let area = numeric::inner::kept_word(s.area);
    let at = t * ENTRY;
    memo[at..at + ENTRY].copy_from_slice(&[
        height,
        from as u32,
        to as u32,
        s.left,
        s.right,
        s.width,
        left_x,
        right_x,
        area,
    ]);
}

// Whether a span is worth to be kept: i lies between its feet, and they are far apart.
fn is_long(from: usize, to: usize, i: usize) -> bool
    ensures { result ≡ true → Between from to i }
{
    if from >= i || i >= to {
        return false;
    }
    to - from > LONG
}

// The feet, the crossings and the width.
#[tactic(auto, unfolding(crate::specs::Span::reach_of))]
pub fn reach_of(level: Level<'_>) -> Reach
    requires { length level.y.now ≤ exact_index }
    ensures { result ≡ reach_of level.entry.y.now level.entry.h level.entry.i }
{
    let left_foot = level.left_foot();
    let right_foot = level.right_foot();
    let left_x = level.left_crossing_from(left_foot);
    let right_x = level.right_crossing_from(right_foot);
    let width = width_of(left_x, right_x, right_foot - left_foot);
    Reach {
        left_foot,
        right_foot,
        left_x,
        right_x,
        width,
    }
}

impl<'a> Apex<'a> {
    // What is measured of the apex, by its reach.
    #[tactic(auto, unfolding(crate::specs::Span::span_of, crate::specs::Span::reach_of))]
    pub fn span_of(self, r: Reach) -> Span
        requires { r ≡ reach_of self.y.now self.h self.i }
        ensures { result ≡ span_of self.entry.y.now self.entry.z.now self.entry.h self.entry.i }
    {
        let last = numeric::inner::of_index(self.y.len() - 1);
        let left = rounding::near::floor_sample(r.left_x, r.left_foot, last);
        let right = rounding::near::ceil_sample(r.right_x, r.right_foot, last);
        let from = numeric::max(r.left_x, 0.0);
        let to = numeric::min(r.right_x, last);
        let end = r.right_foot.saturating_sub(1);
        Span {
            left,
            right,
            width: r.width,
            left_x: r.left_x,
            right_x: r.right_x,
            area: row_area::inner::trapezoid_area_near(self.z, from, to, r.left_foot, end),
        }
    }

    // Measures it. A long span is kept behind the first d, if there is room.
    fn measure(self, least: u32, memo: &mut [u32], d: usize) -> Look
        requires { Memo self.y.now self.z.now memo.old d self.i }
        ensures { Looked self.entry.y.now self.entry.z.now self.entry.h self.entry.i least memo.new result }
    {
        let r = reach_of(Level {
            y: self.y,
            h: self.h,
            i: self.i,
        });
        if is_long(r.left_foot, r.right_foot, self.i) {
            let s = self.span_of(r);
            let depth = d + 1;
            if depth * ENTRY <= memo.len() {
                keep(memo, d, self.h, r.left_foot, r.right_foot, s);
                return Look {
                    span: s.if_wide(least),
                    depth,
                };
            }
            return Look {
                span: s.if_wide(least),
                depth: d,
            };
        }
        if r.width < least {
            return Look {
                span: None,
                depth: d,
            };
        }
        Look {
            span: Some(self.span_of(r)),
            depth: d,
        }
    }

    // Looks at it: a span of the memo serves, or it is measured. Long ones are kept.
    pub fn look_at(self, least: u32, memo: &mut [u32], depth: usize) -> Look
        requires { Memo self.y.now self.z.now memo.old depth self.i }
        ensures { Looked self.entry.y.now self.entry.z.now self.entry.h self.entry.i least memo.new result }
    {
        let d = still_open(memo, depth, self.i);
        if d > 0 && memo[(d - 1) * ENTRY] == numeric::inner::kept_word(self.h) {
            let s = kept_span(memo, d - 1);
            return Look {
                span: s.if_wide(least),
                depth: d,
            };
        }
        self.measure(least, memo, d)
    }
}
