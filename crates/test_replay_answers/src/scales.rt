// The TOF scale. Each line ends with its answer: a kind (0 worked through, 1 nothing there, 2 refused), then the values, or
// the number and zeros.
//  40, build_from_frames: the step, the count of the TOF values and the values; then kind, tof_min, tof_max, tof_step and
//  num_bins.
//  41 to 45 have a scale's four words first.
//  41, index_of_tof: a TOF; then kind, bin and 0.
//  42, index_range_for_tof_window: two TOFs; then kind, first and last bin.
//  43, center: a bin; then kind, centre and 0.
//  44, center_at: a place between bins; then kind, centre and 0.
//  45, tof_bounds_for_row: a bin; then kind, low and high edge.
use super::lines::Answer;
use refusal::Refusal;
use test_hex_lines::parts::{Line, word};
use tof_scale::TofScale;

// The three words of an answer: the kind, then two values, or the number and a zero.
fn told(r: Result<Option<(u32, u32)>, Refusal>) -> Answer<3> {
    Answer::of(match r {
        Ok(Some((a, b))) => [0, a, b],
        Ok(None) => [1, 0, 0],
        Err(refusal) => [2, refusal.number(), 0],
    })
}

pub(crate) fn build(line: &mut Line<'_>) -> Option<Answer<5>> {
    let head = line.take_words(3)?;
    let tofs = line.next_words(head, 2)?;
    Some(Answer::of(match TofScale::build_from_frames(tofs, word(head, 1)) {
        Ok(Some(s)) => [0, s.tof_min, s.tof_max, s.tof_step, s.num_bins],
        Ok(None) => [1, 0, 0, 0, 0],
        Err(refusal) => [2, refusal.number(), 0, 0, 0],
    }))
}

// The values of a function of a scale. A match on its number, which the stored line has.
fn values(
    function: u32,
    s: TofScale,
    x: u32,
    line: &mut Line<'_>,
) -> Option<Result<Option<(u32, u32)>, Refusal>> {
    Some(match function {
        41 => s.index_of_tof(x).map(|bin| bin.map(|i| (i, 0))),
        42 => s
            .index_range_for_tof_window(x, word(line.take_words(1)?, 0))
            .map(|bins| Some((bins.lo, bins.hi))),
        43 => s.center(x).map(|c| Some((numeric::word_of(c), 0))),
        44 => s
            .center_at(numeric::float_of(x))
            .map(|c| Some((numeric::word_of(c), 0))),
        45 => s.tof_bounds_for_row(x).map(|(lo, hi)| Some((
            numeric::word_of(lo),
            numeric::word_of(hi),
        ))),
        _ => return None,
    })
}

pub(crate) fn scale(line: &mut Line<'_>) -> Option<Answer<3>> {
    let head = line.take_words(6)?;
    let s = TofScale {
        tof_min: word(head, 1),
        tof_max: word(head, 2),
        tof_step: word(head, 3),
        num_bins: word(head, 4),
    };
    Some(told(values(word(head, 0), s, word(head, 5), line)?))
}
