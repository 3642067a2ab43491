// Many traces over a checked index: the windows of all peaks first, then frame after frame a sum for each peak, so that what a frame has
// is read while it is at hand.
ghost use Rattle.std.specs.Prelude.{◌≡◌, ◌++◌, ◌≤◌, ◌<◌, ◌+◌, ◌*◌, ◌/◌, length, drop};
ghost use Rattle.limits.specs.Limits.{max_count};
ghost use Rattle.numeric.specs.Arith.{𝟎};
ghost use Rattle.row_record.specs.Record.{size, peak_at};
ghost use Rattle.tof_scale.specs.Tof.{Sound};
ghost use Rattle.frames_index.specs.FrameIndex.{frames};
ghost use Rattle.frames_sums.specs.Sums.{add_frame};
ghost use Rattle.frames_windows.specs.Windows.{peak_window};
ghost use Rattle.frames_many_traces.specs.ManyTraces.{traces_of};
ghost use Rattle.frames_many_traces.specs.Steps.{window_at, Kept, Noted, Column, Columns};

use super::peaks::PaddedPeaks;
use frames_index::CheckedIndex;
use frames_sums::inner::Window;
use tof_scale::CheckedScale;

// ---- windows as words, four each: a caller lends scratch as words, since C has no `Window` and nothing is taken from a heap

// Writes a window to place k.
fn put_window(windows: &mut [u32], k: usize, w: Window)
    requires { 4 * k + 4 ≤ length windows.old }
    ensures { Kept k w windows.old windows.new }
{
    let at = 4 * k;
    windows[at..at + 4].copy_from_slice(&[w.bin_lo, w.bin_hi, w.scan_lo, w.scan_hi]);
}

// Reads the one at place k.
fn window_at(windows: &[u32], k: usize) -> Window
    requires { 4 * k + 4 ≤ length windows.now }
    ensures { result ≡ window_at windows.now k }
{
    let at = 4 * k;
    Window {
        bin_lo: windows[at],
        bin_hi: windows[at + 1],
        scan_lo: windows[at + 2],
        scan_hi: windows[at + 3],
    }
}

// Writes those of some peaks. By place: of a list that is written through `chunks_exact_mut` the proof knows the length alone, and a window
// goes to the place of its peak.
fn put_windows(peaks: PaddedPeaks, windows: &mut [u32])
    requires { Sound peaks.scale × (peaks.pad ≤ max_count) × (4 * (length peaks.list.now / size) ≤ length windows.old) }
    ensures { Noted (λ k. peak_window peaks.entry.scale peaks.entry.pad (peak_at peaks.entry.list.now k)) (length peaks.entry.list.now / size) windows.old windows.new }
{
    for k in 0..peaks.count() {
        let p = row_record::inner::peak_at(peaks.list, k);
        let w = frames_windows::inner::peak_window(CheckedScale::of(peaks.scale), peaks.pad, p);
        put_window(windows, k, w);
    }
}

// ---- sums

// Puts the sums of frame f, of m frames: one for each of n windows, at the f-th place of its trace. By place: a sum goes m
// places behind the one before it, and through `chunks_exact_mut(m)` the proof would know the length of `out` alone. The windows are read
// by the same place, and n stands beside them: as many as there are peaks are looked at, of scratch that may be longer.
fn put_column(ix: &CheckedIndex, f: usize, m: usize, n: usize, windows: &[u32], out: &mut [f32])
    requires { (f + 1 < length ix.now.starts) × (f < m) × (n * m ≤ length out.old) × (4 * n ≤ length windows.now) }
    ensures { Column (λ k. add_frame ix.now (window_at windows.now k) f 𝟎) n m f out.old out.new }
{
    for k in 0..n {
        let w = window_at(windows, k);
        out[k * m + f] = frames_sums::inner::add_frame(ix, f, w, 0.0);
    }
}

// Those of the first m frames, by their places in the run: an index has no list of frames.
fn put_columns(ix: &CheckedIndex, m: usize, n: usize, windows: &[u32], out: &mut [f32])
    requires { (m < length ix.now.starts) × (n * m ≤ length out.old) × (4 * n ≤ length windows.now) }
    ensures { Columns (λ k g. add_frame ix.now (window_at windows.now k) g 𝟎) n m m out.old out.new }
{
    for f in 0..m {
        put_column(ix, f, m, n, windows, out);
    }
}

// Puts the traces of some peaks to the front of `out`, one after another.
pub fn put_traces(ix: &CheckedIndex, peaks: PaddedPeaks, out: &mut [f32], windows: &mut [u32])
    requires { Sound peaks.scale × (peaks.pad ≤ max_count) × (length peaks.list.now / size * frames ix.now ≤ length out.old)
        × (4 * (length peaks.list.now / size) ≤ length windows.old) }
    ensures out { out.new ≡ traces_of ix.now peaks.entry.scale peaks.entry.pad peaks.entry.list.now (length peaks.entry.list.now / size) ++ drop (length peaks.entry.list.now / size * frames ix.now) out.old }
    ensures windows { drop (4 * (length peaks.entry.list.now / size)) windows.new ≡ drop (4 * (length peaks.entry.list.now / size)) windows.old }
{
    put_windows(peaks, windows);
    put_columns(ix, ix.frames(), peaks.count(), windows, out);
}
