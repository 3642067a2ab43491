// Rows of a grid with its weights decoded.
ghost use Rattle.std.specs.Prelude.{◌≡◌, ◌/◌, length, drop};
ghost use Rattle.grid_word_bytes.specs.Bytes.{floats_of};
ghost use Rattle.grid_rows.specs.Steps.{Ready, Done};
ghost use Rattle.grid_rows.specs.Lent.{Lent, SameRowScratch};
ghost use Rattle.grid_byte_rows.specs.AsBytes.{as_bytes};
ghost use Rattle.grid_byte_rows.specs.Call.{bytes_in};

use grid_byte_rows::call::ByteCall;
use grid_rows::lent::RowScratch;
use row_smoothed::kernel::Kernel;
use std::ops::Range;

// The records of the peaks of some rows, smoothed by weights where there are any.
pub fn detect_smoothed(
    call: &ByteCall<'_>,
    weights: &[u8],
    rows: Range<usize>,
    out: &mut [u8],
    lent: &mut RowScratch<'_, '_>,
) -> usize
    requires { Ready (bytes_in call.now (floats_of weights.now)) rows.start rows.end (length out.old / 4) × Lent call.now.terms.cols call.now.terms.cols lent.old }
    ensures done { Done as_bytes (bytes_in call.now (floats_of weights.now)) rows.start rows.end out.old out.new result }
    ensures past { drop call.now.terms.cols lent.new.y.now ≡ drop call.now.terms.cols lent.old.y.now }
    ensures same { SameRowScratch lent.old lent.new }
    ensures lengths { (length lent.new.z.now ≡ length lent.old.z.now) × (length lent.new.y.now ≡ length lent.old.y.now) }
    ensures samples { lent.new.search.now.samples ≡ lent.old.search.now.samples }
{
    let m = weights.len() / 4;
    let mut ws = [0f32; limits::MAX_WEIGHTS];
    let mut u = [0f32; limits::MAX_WEIGHTS];
    grid_word_bytes::inner::decode_floats(weights, 0, &mut ws[..m]);
    row_smoothing::inner::normalise(&ws[..m], &mut u[..m]);
    let kernel = Kernel {
        weights: &ws[..m],
        divided: &u[..m],
    };
    // A copy: its fields stay in registers over the rows, where those behind a reference would be read anew for each.
    let own = *call;
    grid_rows::rows::detect_rows(&own, &kernel, rows, out, lent)
}
