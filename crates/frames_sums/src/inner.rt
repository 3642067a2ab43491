// Sums over the points of a checked index: those of a frame whose bins lie in a window stand side by side.
ghost use Rattle.std.specs.Prelude.{◌≡◌, List, cond, ◌++◌, ℕ, ◌≤◌, ◌<◌, ◌+◌, ◌-◌, ltb, length, get_or, drop};
ghost use Rattle.std.specs.List.{position, list_any, zip};
ghost use Rattle.frames_sums.specs.Sums.{in_scans, add_points, add_frame, frame_sums};
ghost use Rattle.frames_index.specs.FrameIndex.{index_of};
ghost use Rattle.frames_sums.specs.Steps.{Rising, FirstAt, add_each, PointsOf};

use frames_index::CheckedIndex;

// Bins and scans, ends included.
#[derive(Clone, Copy)]
pub struct Window {
    pub bin_lo: u32,
    pub bin_hi: u32,
    pub scan_lo: u32,
    pub scan_hi: u32,
}

impl Window {
    pub fn has_scan(self, s: u32) -> bool
        ensures { result ≡ in_scans self s }
    {
        (self.scan_lo <= s) & (s <= self.scan_hi)
    }
}

// Points from a place on, before another. No `Range`, which is not `Copy`: two columns are cut by one span.
#[derive(Clone, Copy)]
pub struct Span {
    pub from: usize,
    pub to: usize,
}

// Frames of the run, side by side: `count` of them from place `from` on. A count, since as many sums are written. The range knows no index:
// that it ends within one is a clause of each function that is handed both, and speaks of the starts of that index.
#[derive(Clone, Copy)]
pub struct FrameRange {
    pub from: usize,
    pub count: usize,
}

// 1 where a is below b, and else 0; reckoned, since by `(a < b) as usize` the compiler makes the search branch on it, and many traces over
// 1,000 bins a frame take 1.8 times as long.
pub fn below(a: u32, b: u32) -> usize
    ensures { result ≡ cond (ltb a b) 1 0 }
{
    1 - ((u64::from(a) + 4294967296 - u64::from(b)) / 4294967296) as usize
}

// Places are those of the whole list of bins, and searches go from a place up to another: where one ends, the next begins.

// The first place whose bin is x at least, by halving; by `partition_point`, which branches on each bin that it reads, the same traces take
// 1.8 times as long.
pub fn first_at(bins: &[u32], from: usize, to: usize, x: u32) -> usize
    requires { (from ≤ to) × (to ≤ length bins.now) × Rising bins.now from to }
    ensures { FirstAt bins.now from to x result }
{
    if from == to {
        return from;
    }
    let mut base = from;
    let mut n = to - from;
    while n > 1 {
        let half = n / 2;
        base += half * below(bins[base + half], x);
        n -= half;
    }
    base + below(bins[base], x)
}

// The first of some bins that is above x.
fn place_above(bins: &[u32], x: u32) -> Option<usize>
    ensures { result ≡ position (λ bin. ltb x bin) bins.now }
{
    bins.iter().position(|&bin| x < bin)
}

// The first place whose bin is above x, step by step, since windows are narrow.
pub fn first_above(bins: &[u32], from: usize, to: usize, x: u32) -> usize
    requires { (from ≤ to) × (to ≤ length bins.now) × Rising bins.now from to }
    ensures { FirstAt bins.now from to (x + 1) result }
{
    from + place_above(&bins[from..to], x).unwrap_or(to - from)
}

// The points of frame f whose bins lie in the window. `span_from` of frames_window_sums ends alike, in two lines; what a function of these two would
// ask, two places and what stands before each, is longer than they are.
pub fn span_of(ix: &CheckedIndex, f: usize, w: Window) -> Span
    requires { f + 1 < length ix.now.starts }
    ensures { PointsOf ix.now w f result }
{
    let starts = ix.starts;
    let s = starts[f] as usize;
    let t = starts[f + 1] as usize;
    let i = first_at(ix.bins, s, t, w.bin_lo);
    let j = first_above(ix.bins, i, t, w.bin_hi);
    Span {
        from: ix.offsets[i] as usize,
        to: ix.offsets[j] as usize,
    }
}

// Adds the readings whose scans lie in the window, point by point. By number: a reading is loaded where it is added. By `zip` all are, the
// compiler then branches on both ends of the window, and sums over frames of one point take 1.7 times as long.
fn add_each(scans: &[u32], readings: &[f32], w: Window, so: f32) -> f32
    requires { length readings.now ≡ length scans.now }
    ensures { result ≡ add_each w so (zip scans.now readings.now) }
{
    let mut sum = so;
    for k in 0..scans.len() {
        if w.has_scan(scans[k]) {
            sum += readings[k];
        }
    }
    sum
}

// Whether one of some scans lies in the window: all are looked at, many at once.
fn any_in(scans: &[u32], w: Window) -> bool
    ensures { result ≡ list_any (in_scans w) scans.now }
{
    scans
        .iter()
        .fold(false, |any, &scan| any | w.has_scan(scan))
}

// The same as point by point, for the points of a span; eight points are passed over at a time where none of them lies in the window.
pub fn add_points(scans: &[u32], readings: &[f32], p: Span, w: Window, so: f32) -> f32
    requires { (p.from ≤ p.to) × (p.to ≤ length scans.now) × (length readings.now ≡ length scans.now) }
    ensures { (starts bins offsets : List ℕ) → result ≡ add_points (index_of starts bins offsets scans.now readings.now) w (p.to - p.from) p.from so }
{
    let (eights, rest) = scans[p.from..p.to].as_chunks::<8>();
    let (their_eights, their_rest) = readings[p.from..p.to].as_chunks::<8>();
    let sum = eights
        .iter()
        .zip(their_eights)
        .fold(so, |sum, (eight, theirs)| {
            if any_in(eight, w) {
                add_each(eight, theirs, w, sum)
            } else {
                sum
            }
        });
    add_each(rest, their_rest, w, sum)
}

// Adds the readings of frame f whose bin and scan lie in the window.
pub fn add_frame(ix: &CheckedIndex, f: usize, w: Window, so: f32) -> f32
    requires { f + 1 < length ix.now.starts }
    ensures { result ≡ add_frame ix.now w f so }
{
    let p = span_of(ix, f, w);
    add_points(ix.scans, ix.readings, p, w, so)
}

// A sum for each of some frames.
pub fn put_frame_sums(ix: &CheckedIndex, frames: FrameRange, w: Window, out: &mut [f32])
    requires { (frames.from + frames.count < length ix.now.starts) × (frames.count ≤ length out.old) }
    ensures { out.new ≡ frame_sums ix.now w frames.from frames.count ++ drop frames.count out.old }
{
    prove!(frames.from < ix.starts.len());
    for (k, sum) in out[..frames.count].iter_mut().enumerate() {
        *sum = add_frame(ix, frames.from + k, w, 0.0);
    }
}
