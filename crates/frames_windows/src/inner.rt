// Windows for values that a caller has checked.
ghost use Rattle.std.specs.Prelude.{◌≡◌, ◌≤◌, ◌+◌};
ghost use Rattle.limits.specs.Limits.{max_count};
ghost use Rattle.frames_windows.specs.Windows.{padded_bins, row_window, bounds_window, peak_window};

use frames_sums::inner::Window;
use row_record::ImPeak1D;
use tof_scale::CheckedScale;

// A TOF row, the bins to take on either side of it, and scans.
#[derive(Clone, Copy)]
pub struct PaddedRow {
    pub row: u32,
    pub pad: u32,
    pub scan_lo: u32,
    pub scan_hi: u32,
}

// TOF bounds, the bins to take on either side of theirs, and scans.
#[derive(Clone, Copy)]
pub struct Bounds {
    pub tof_lo: u32,
    pub tof_hi: u32,
    pub pad: u32,
    pub scan_lo: u32,
    pub scan_hi: u32,
}

// Bins with some more on either side.
pub fn padded_bins(lo: u32, hi: u32, pad: u32, scan_lo: u32, scan_hi: u32) -> Window
    requires { hi + pad ≤ 4294967295 }
    ensures { result ≡ padded_bins lo hi pad scan_lo scan_hi }
{
    Window {
        bin_lo: lo.saturating_sub(pad),
        bin_hi: hi + pad,
        scan_lo,
        scan_hi,
    }
}

// The bins around a TOF row.
pub fn row_window(r: PaddedRow) -> Window
    requires { r.row + r.pad ≤ 4294967295 }
    ensures { result ≡ row_window r }
{
    padded_bins(r.row, r.row, r.pad, r.scan_lo, r.scan_hi)
}

// The bins of TOF bounds, padded.
pub fn bounds_window(scale: CheckedScale, b: Bounds) -> Window
    requires { b.pad ≤ max_count }
    ensures { result ≡ bounds_window scale.scale b.tof_lo b.tof_hi b.pad b.scan_lo b.scan_hi }
{
    let bins = tof_scale::inner::window_bins(scale, b.tof_lo, b.tof_hi);
    padded_bins(bins.lo, bins.hi, b.pad, b.scan_lo, b.scan_hi)
}

// Those of a peak's bounds.
pub fn peak_window(scale: CheckedScale, pad: u32, p: ImPeak1D) -> Window
    requires { pad ≤ max_count }
    ensures { result ≡ peak_window scale.scale pad p }
{
    bounds_window(
        scale,
        Bounds {
            tof_lo: p.tof_lo,
            tof_hi: p.tof_hi,
            pad,
            scan_lo: p.left_abs,
            scan_hi: p.right_abs,
        },
    )
}
