// The row level and grid detection.
//  32, the row finder: the lengths of smoothed row, raw row, scan axis and mobility table and the places of the lent list; place,
//  bounds, group (0 or 1, and its number), parameters and first identity; the four lists; then the number, the count and the
//  words of the list.
//  33, smoothing: the lengths of row, weights and scratch; row and weights; then the number and the row afterwards.
//  48, grid detection: rows and columns; the lengths of data, raw data, scan axis, mobility table, weights and scratch and the
//  places of the lent list; scale, bounds, group (0 or 1, and its number), parameters and first identity; the five lists; then
//  the number, the count and the words of the list. The scratch must keep what it has, past the columns, or after a refusal
//  everywhere.
ghost use Rattle.std.specs.Prelude.{◌+◌, ◌<◌};

use super::lines::{Answer, Lent, ROOM};
use refusal::Refusal;
use row::inner::Row;
use row_params::{FrameBounds, ImDetectParams, RowPlace};
use row_record::ImPeak1D;
use test_hex_lines::parts::{Line, float, front, word};
use tof_scale::TofScale;

// The four bounds of a line's head from place i on, and the group behind them: 0 or 1, and its number.
fn bounds(head: &[u32], i: usize) -> FrameBounds
    requires { i + 5 < 0x1_0000_0000_0000_0000 }
{
    FrameBounds {
        rt_lo: word(head, i),
        rt_hi: word(head, i + 1),
        frame_id_lo: word(head, i + 2),
        frame_id_hi: word(head, i + 3),
        window_group: (word(head, i + 4) != 0).then_some(word(head, i + 5)),
    }
}

// The parameters from place i on.
fn params(head: &[u32], i: usize) -> ImDetectParams
    requires { i + 2 < 0x1_0000_0000_0000_0000 }
{
    ImDetectParams {
        min_prom: float(head, i),
        min_distance_scans: word(head, i + 1),
        min_width_scans: word(head, i + 2),
    }
}

// The number, the count and a list of that many peaks; None of a count that no list has. After a refusal no scratch may have changed.
fn peaks(r: Result<usize, Refusal>, scratched: usize) -> Option<Answer<2>> {
    Some(match r {
        Ok(count) => Answer {
            words: [0, u32::try_from(count).ok()?],
            rest: count.checked_mul(ImPeak1D::WORDS)?,
            scratched,
        },
        Err(refusal) => Answer::of([refusal.number(), 0]),
    })
}

// What is lent for records: as many places as word i of a line's head says, each of a record. `test_replay_run` counts its places in words, and
// `test_hex_lines` has the part that both share, `front`.
fn records<'a>(out: &'a mut [u32; ROOM], head: &[u32], i: usize) -> &'a mut [u32] {
    front(out, word(head, i) as usize * ImPeak1D::WORDS)
}

pub(crate) fn row(line: &mut Line<'_>, lent: &mut Lent) -> Option<Answer<2>> {
    let head = line.take_words(20)?;
    let y = line.next_floats(head, 1)?;
    let z = line.next_floats(head, 2)?;
    let axis = line.next_words(head, 3)?;
    let mobility = line.next_floats(head, 4)?;
    let place = RowPlace {
        tof_row: word(head, 6),
        tof_center: word(head, 7),
        tof_lo: word(head, 8),
        tof_hi: word(head, 9),
    };
    let row = Row {
        y,
        z,
        place,
        bounds: bounds(head, 10),
        mobility,
        axis,
    };
    let out = records(&mut lent.out, head, 5);
    let r = row::find_im_peaks_row(&row, params(head, 16), word(head, 19), out);
    peaks(r, 0)
}

pub(crate) fn grid(line: &mut Line<'_>, lent: &mut Lent) -> Option<Answer<2>> {
    let head = line.take_words(24)?;
    let data = line.next_floats(head, 3)?;
    let raw = line.next_floats(head, 4)?;
    let scans = line.next_words(head, 5)?;
    let mobility = line.next_floats(head, 6)?;
    let weights = line.next_floats(head, 7)?;
    let scale = TofScale {
        tof_min: word(head, 10),
        tof_max: word(head, 11),
        tof_step: word(head, 12),
        num_bins: word(head, 13),
    };
    let cols = word(head, 2) as usize;
    let r = grid::detect_im_peaks_from_tof_scan_grid(
        word(head, 1) as usize,
        cols,
        data,
        raw,
        scans,
        scale,
        bounds(head, 14),
        mobility,
        params(head, 20),
        weights,
        word(head, 23),
        records(&mut lent.out, head, 9),
        front(&mut lent.scratch, word(head, 8) as usize),
    );
    peaks(r, cols)
}

// The row of a line of smoothing is lent as it stands in the line.
pub(crate) fn smoothing(line: &mut Line<'_>, lent: &mut Lent) -> Option<Answer<1>> {
    let head = line.take_words(4)?;
    let row = line.next_floats(head, 1)?;
    let weights = line.next_floats(head, 2)?;
    let rest = row.len();
    let scratched = word(head, 3) as usize;
    let v = lent.v.get_mut(..rest)?;
    v.copy_from_slice(row);
    let r = row_smoothing::smooth_vector_gaussian(v, weights, front(&mut lent.scratch, scratched));
    Some(Answer {
        words: [r.err().map_or(0, |refusal| refusal.number())],
        rest,
        scratched,
    })
}
