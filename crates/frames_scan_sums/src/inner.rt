// Sums over the points of a checked index, a value for each scan of a window.
ghost use Rattle.std.specs.Prelude.{◌≡◌, ◌++◌, ℕ, ◌≤◌, ◌<◌, ◌+◌, ◌-◌, length, drop};
ghost use Rattle.numeric.specs.Arith.{𝟎};
ghost use Rattle.frames_sums.specs.Sums.{add_points, at_scan, scan_sums};
ghost use Rattle.frames_scan_sums.specs.Steps.{scans_of, Stepped};

use frames_index::CheckedIndex;
use frames_sums::inner::{FrameRange, Span, Window};

fn clear(n: usize, out: &mut [f32])
    requires { n ≤ length out.old }
    ensures { Stepped (λ _ _. 𝟎) n out.old out.new }
{
    out[..n].fill(0.0);
}

// Adds the readings of a span to the values of their scans.
fn deal_points(ix: &CheckedIndex, p: Span, w: Window, out: &mut [f32])
    requires { (p.from ≤ p.to) × (p.to ≤ length ix.now.scans) × (scans_of w ≤ length out.old) }
    ensures { Stepped (λ k. add_points ix.now (at_scan w (w.scan_lo + k)) (p.to - p.from) p.from) (scans_of w) out.old out.new }
{
    let scans = ix.scans;
    let readings = ix.readings;
    for (&scan, &reading) in scans[p.from..p.to].iter().zip(&readings[p.from..p.to]) {
        if w.has_scan(scan) {
            out[(scan - w.scan_lo) as usize] += reading;
        }
    }
}

// A sum for each scan of the window, over some frames, by their places in the run: an index has no list of frames.
pub fn put_scan_sums(ix: &CheckedIndex, frames: FrameRange, w: Window, out: &mut [f32])
    requires { (frames.from + frames.count < length ix.now.starts) × (w.scan_lo ≤ w.scan_hi) × (scans_of w ≤ length out.old) }
    ensures { out.new ≡ scan_sums ix.now w frames.from frames.count ++ drop (scans_of w) out.old }
{
    clear((w.scan_hi - w.scan_lo) as usize + 1, out);
    let from = frames.from;
    prove!(from < ix.starts.len());
    for f in from..from + frames.count {
        let p = frames_sums::inner::span_of(ix, f, w);
        deal_points(ix, p, w, out);
    }
}
