// Sums of a window's frames where its bins are looked for near a place that is remembered for each frame. Whatever is remembered, the
// sums are the same: a place is only where the search begins.
ghost use Rattle.std.specs.Prelude.{◌≡◌, ◌++◌, ◌≤◌, ◌<◌, ◌+◌, length, drop};
ghost use Rattle.frames_sums.specs.Sums.{frame_sums};
ghost use Rattle.frames_sums.specs.Steps.{Rising, FirstAt, PointsOf};
ghost use Rattle.frames_window_sums.specs.Steps.{FirstIn, Placed};

use frames_index::CheckedIndex;
use frames_sums::inner::{FrameRange, Span, Window};

// Places are those of the whole list of bins, as in `frames_sums`: the search of a frame begins at one that is remembered.

// The first place whose bin is x at least, of a few: those below are counted, all of them, since at a branch that leaves early the
// processor would lose what it has begun of the frames behind.
fn count_to(bins: &[u32], from: usize, to: usize, x: u32) -> usize
    requires { (from ≤ to) × (to ≤ length bins.now) × Rising bins.now from to }
    ensures { FirstAt bins.now from to x result }
{
    bins[from..to]
        .iter()
        .fold(from, |r, &bin| r + frames_sums::inner::below(bin, x))
}

// The same behind place h, which has seven more behind it and a bin below x: of those six, or else by halving.
fn first_past(bins: &[u32], h: usize, to: usize, x: u32) -> usize
    requires { (h + 8 ≤ to) × (to ≤ length bins.now) × Rising bins.now h to }
    ensures { FirstAt bins.now (h + 1) to x result }
{
    let last = h + 7;
    if bins[last] < x {
        return frames_sums::inner::first_at(bins, last + 1, to, x);
    }
    count_to(bins, h + 1, last, x)
}

// The same, looked for near place h first, wherever that is.
fn first_near(bins: &[u32], from: usize, to: usize, x: u32, h: usize) -> usize
    requires { (from ≤ to) × (to ≤ length bins.now) × Rising bins.now from to }
    ensures { FirstAt bins.now from to x result }
{
    if from <= h && h < to && to - h >= 8 && bins[h] < x {
        return first_past(bins, h, to, x);
    }
    frames_sums::inner::first_at(bins, from, to, x)
}

// Where the search of a frame begins whose bins start at s, if the last one ended at i: one place before.
fn place_before(s: usize, i: usize) -> usize
    ensures { result ≤ i }
{
    if s < i { i - 1 } else { i }
}

// The first place of frame f whose bin is x at least; h is where the last search of the frame ended.
fn place_in(ix: &CheckedIndex, f: usize, x: u32, h: usize) -> u32
    requires { f + 1 < length ix.now.starts }
    ensures { FirstIn ix.now f x result }
{
    let starts = ix.starts;
    let s = starts[f] as usize;
    let t = starts[f + 1] as usize;
    first_near(ix.bins, s, t, x, place_before(s, h)) as u32
}

// Puts such a place for each of some frames to the frame's word of `near`. All searches come before all sums, since then nothing but
// searches stands between the readings of two frames' bins, and these overlap.
fn put_places(ix: &CheckedIndex, frames: FrameRange, x: u32, near: &mut [u32])
    requires { (frames.from + frames.count < length ix.now.starts) × (frames.from + frames.count ≤ length near.old) }
    ensures { Placed ix.now frames.from frames.count x near.new }
{
    let from = frames.from;
    for (k, place) in near[from..from + frames.count].iter_mut().enumerate() {
        *place = place_in(ix, from + k, x, *place as usize);
    }
}

// The points of frame f whose bins lie in the window, the first of which is at place i. Where there are none the offsets are not read: any
// empty span serves. The offsets of any others make the span as in `span_of` of frames_sums.
fn span_from(ix: &CheckedIndex, f: usize, w: Window, i: usize) -> Span
    requires { (f + 1 < length ix.now.starts)
        × FirstIn ix.now f w.bin_lo i }
    ensures { PointsOf ix.now w f result }
{
    let starts = ix.starts;
    let t = starts[f + 1] as usize;
    let j = frames_sums::inner::first_above(ix.bins, i, t, w.bin_hi);
    if i == j {
        return Span { from: 0, to: 0 };
    }
    Span {
        from: ix.offsets[i] as usize,
        to: ix.offsets[j] as usize,
    }
}

// A sum for each of some frames whose first places are known. The number k tells the frame too, so that with a `zip` the loop would count
// besides, and take its three parts from a pair in a pair.
fn put_sums(ix: &CheckedIndex, frames: FrameRange, w: Window, near: &[u32], out: &mut [f32])
    requires { (frames.from + frames.count < length ix.now.starts) × (frames.from + frames.count ≤ length near.now) × (frames.count ≤ length out.old)
        × Placed ix.now frames.from frames.count w.bin_lo near.now }
    ensures { out.new ≡ frame_sums ix.now w frames.from frames.count ++ drop frames.count out.old }
{
    let scans = ix.scans;
    let readings = ix.readings;
    let from = frames.from;
    for (k, &i) in near[from..from + frames.count].iter().enumerate() {
        let p = span_from(ix, from + k, w, i as usize);
        out[k] = frames_sums::inner::add_points(scans, readings, p, w, 0.0);
    }
}

// A sum for each of some frames. `near` has a word for each frame of the run: where the last search of it ended, of whatever window.
pub fn put_frame_sums_near(
    ix: &CheckedIndex,
    frames: FrameRange,
    w: Window,
    near: &mut [u32],
    out: &mut [f32],
)
    requires { (frames.from + frames.count < length ix.now.starts) × (frames.from + frames.count ≤ length near.old) × (frames.count ≤ length out.old) }
    ensures { out.new ≡ frame_sums ix.now w frames.from frames.count ++ drop frames.count out.old }
{
    put_places(ix, frames, w.bin_lo, near);
    put_sums(ix, frames, w, near, out);
}
