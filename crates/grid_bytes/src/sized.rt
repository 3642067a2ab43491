// Rows of a grid with local lists of a length that fits them.
ghost use Rattle.std.specs.Prelude.{◌≤◌, ◌<◌, ◌+◌, ◌*◌, ◌/◌, length};
ghost use Rattle.row_search.specs.Room.{Sizes};
ghost use Rattle.grid_rows.specs.Steps.{Done};
ghost use Rattle.grid_byte_rows.specs.Call.{bytes_in};
ghost use Rattle.grid_word_bytes.specs.Bytes.{floats_of};
ghost use Rattle.grid_byte_rows.specs.AsBytes.{as_bytes};
ghost use Rattle.grid_bytes.specs.ByteGrid.{Fit};

use grid_byte_rows::call::ByteCall;
use grid_rows::call::Terms;
use grid_rows::lent::RowScratch;
use row_record::{ImPeak1D, PeakId};
use row_search::scratch::Arrays;
use std::ops::Range;

// Rows that are worked through in one part.
const MANY_ROWS: usize = 65536;

// The records of the peaks of some rows, with local lists for rows of at most N samples. It is no part of its callers,
// so that each has the stack of one size alone. There is no heap, so the lists stand in its frame, as those of `row::inner::list_in` do.
#[inline(never)]
fn detect_in<const N: usize, const B: usize>(
    call: &ByteCall<'_>,
    weights: &[u8],
    rows: Range<usize>,
    out: &mut [u8],
) -> usize
    requires rows { Fit (bytes_in call.now (floats_of weights.now)) rows.start rows.end (length out.old) × (call.now.terms.cols ≤ N) }
    requires sizes { Sizes N B }
    ensures { Done as_bytes (bytes_in call.now (floats_of weights.now)) rows.start rows.end out.old out.new result }
{
    let mut z = [0f32; N];
    let mut y = [0f32; N];
    let mut lists = Arrays::<N, B>::new();
    let mut scratch = lists.lend(N);
    let mut lent = RowScratch {
        z: &mut z[..call.terms.cols],
        y: &mut y,
        search: &mut scratch,
    };
    super::weighed::detect_smoothed(call, weights, rows, out, &mut lent)
}

// The records of the peaks of some rows. Many rows are worked through in two halves. This function calls itself, so a
// compiler keeps the lists of those that it calls out of its frame, and short rows do not pay for the lists of long ones.
pub fn detect_bytes(
    call: &ByteCall<'_>,
    weights: &[u8],
    rows: Range<usize>,
    out: &mut [u8],
) -> usize
    requires { Fit (bytes_in call.now (floats_of weights.now)) rows.start rows.end (length out.old) }
    ensures { Done as_bytes (bytes_in call.now (floats_of weights.now)) rows.start rows.end out.old out.new result }
{
    let Range {
        start: from,
        end: to,
    } = rows;
    if to - from > MANY_ROWS {
        let mid = from + (to - from) / 2;
        let n = detect_bytes(call, weights, from..mid, out);
        let at = n * ImPeak1D::BYTES;
        let rest = ByteCall {
            terms: Terms {
                first: call.terms.first + n as PeakId,
                ..call.terms
            },
            ..*call
        };
        let m = detect_bytes(&rest, weights, mid..to, &mut out[at..]);
        return n + m;
    }
    if call.terms.cols <= 32 {
        return detect_in::<32, 52>(call, weights, from..to, out);
    }
    if call.terms.cols <= 256 {
        return detect_in::<256, 272>(call, weights, from..to, out);
    }
    if call.terms.cols <= 1024 {
        return detect_in::<1024, 800>(call, weights, from..to, out);
    }
    detect_in::<16384, 8480>(call, weights, from..to, out)
}
