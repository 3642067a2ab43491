// Steps over a row that the caller has checked.
ghost use Rattle.row_search.specs.SameLists.{SameLists};
ghost use Rattle.std.specs.Prelude.{◌≡◌, ◌≤◌, length};
ghost use Rattle.row_smoothed.specs.SmoothRow.{all_zero, is_raw, samples_in, Handed, Done};

use super::kernel::Kernel;
use row_params::ImDetectParams;
use row_search::scratch::Scratch;

// Whether every reading is a zero. All are looked at, so that many are at once.
fn all_zero(z: &[f32]) -> bool
    ensures { result ≡ all_zero z.now }
{
    z.iter().fold(true, |all, x| all & (*x == 0.0))
}

// Whether a row z is searched as it is: there are no weights, or it has at most 2 samples.
fn is_raw(kernel: &Kernel<'_>, z: &[f32]) -> bool
    ensures { result ≡ is_raw kernel.now.weights.now z.now }
{
    kernel.weights.is_empty() | (z.len() <= 2)
}

// Searches a row z, smoothed into y where weights are given, and answers how many apexes are kept. What is measured of them stands at the
// front of the scratch's list `found`. None where the row is not searched: one that does not reach the floor keeps no apex, nor does one
// of zeros.
pub fn search_row(
    z: &[f32],
    p: ImDetectParams,
    kernel: &Kernel<'_>,
    y: &mut [f32],
    scratch: &mut Scratch<'_>,
) -> Option<usize>
    requires { Handed z.now kernel.now.weights.now (length y.old) scratch.old.samples }
    ensures done { Done p kernel.now.weights.now z.now y.old y.new scratch.new.found.now result }
    ensures samples { scratch.new.samples ≡ scratch.old.samples }
    ensures lists { SameLists scratch.old scratch.new }
{
    if !row_search::inner::reaches_floor(z, p.min_prom) {
        return None;
    }
    if is_raw(kernel, z) {
        return Some(row_search::inner::find_apexes(z, z, p, scratch));
    }
    if all_zero(z) {
        return None;
    }
    numeric::inner::all_fit(z);
    numeric::inner::all_fit(kernel.weights);
    let n = z.len();
    row_smoothing::inner::smooth_by(z, kernel.divided, y);
    Some(row_search::inner::find_apexes(&y[..n], z, p, scratch))
}

// The samples that a search of a row z searches: the row itself, or the smoothed one at the front of y.
pub fn samples<'a>(kernel: &Kernel<'_>, z: &'a [f32], y: &'a [f32]) -> &'a [f32]
    requires { length z.now ≤ length y.now }
    ensures { result.now ≡ samples_in kernel.now.weights.now z.now y.now }
{
    if is_raw(kernel, z) {
        return z;
    }
    &y[..z.len()]
}
