// Rows of a grid with local lists of a length that fits them.
ghost use Rattle.std.specs.Prelude.{◌≡◌, ◌≤◌, length, drop};
ghost use Rattle.row.specs.Written.{as_words};
ghost use Rattle.row_search.specs.Room.{Sizes};
ghost use Rattle.grid_rows.specs.Steps.{grid_in, Ready, Done};

use super::call::GridCall;
use super::lent::RowScratch;
use row_search::scratch::Arrays;
use row_smoothed::kernel::Kernel;
use std::ops::Range;

// The records of the peaks of some rows, with room for the search of rows of N samples. It is no part of its callers,
// so that each has the stack of one size alone. There is no heap, so the lists stand in its frame, as those of `row::inner::list_in` do.
#[inline(never)]
fn detect_in<const N: usize, const B: usize>(
    call: &GridCall<'_>,
    kernel: &Kernel<'_>,
    rows: Range<usize>,
    out: &mut [u32],
    y: &mut [f32],
) -> usize
    requires rows { Ready (grid_in call.now kernel.now.weights.now) rows.start rows.end (length out.old) × (call.now.terms.cols ≤ length y.old) × (call.now.terms.cols ≤ N) }
    requires sizes { Sizes N B }
    ensures done { Done as_words (grid_in call.now kernel.now.weights.now) rows.start rows.end out.old out.new result }
    ensures past { drop call.now.terms.cols y.new ≡ drop call.now.terms.cols y.old }
{
    let mut lists = Arrays::<N, B>::new();
    let mut scratch = lists.lend(N);
    let mut lent = RowScratch {
        z: &mut [],
        y,
        search: &mut scratch,
    };
    // A copy, as in grid_bytes::weighed: its fields stay in registers over the rows.
    let own = *call;
    super::rows::detect_rows(&own, kernel, rows, out, &mut lent)
}

// The records of the peaks of some rows, for rows of at most 16,384 samples, smoothed by the weights where there are
// any. `y` is scratch for a smoothed row.
pub fn detect(
    call: &GridCall<'_>,
    weights: &[f32],
    rows: Range<usize>,
    out: &mut [u32],
    y: &mut [f32],
) -> usize
    requires { Ready (grid_in call.now weights.now) rows.start rows.end (length out.old) × (call.now.terms.cols ≤ length y.old) × (call.now.terms.cols ≤ 16384) }
    ensures done { Done as_words (grid_in call.now weights.now) rows.start rows.end out.old out.new result }
    ensures past { drop call.now.terms.cols y.new ≡ drop call.now.terms.cols y.old }
{
    let m = weights.len();
    let mut divided = [0f32; limits::MAX_WEIGHTS];
    row_smoothing::inner::normalise(weights, &mut divided[..m]);
    let kernel = Kernel {
        weights,
        divided: &divided[..m],
    };
    if call.terms.cols <= 1024 {
        return detect_in::<1024, 800>(call, &kernel, rows, out, y);
    }
    detect_in::<16384, 8480>(call, &kernel, rows, out, y)
}
