// A line of the second call: 11 of one mobility peak, 12 of many; the lengths of the records, of the index's five lists, of frame numbers,
// times, weights and lengths; the scale, the nine numbers of the parameters, and the first identity; the words that are lent for
// records, counts and the three lists of scratch; the ten lists. Then the number, the count, the length of the column of counts, the
// column, and the records.
use super::lines::{BEFORE, ROOM, Stored, has, kept, lent, next_index};
use frames_index::FrameIndex;
use test_hex_lines::parts::{Line, float, patterns, word};

// The ten lists of a line, five of them in the index.
#[derive(Drop)]
struct Lists<'a> {
    records: &'a [u32],
    index: FrameIndex<'a>,
    ids: &'a [u32],
    times: &'a [f32],
    weights: &'a [f32],
    lengths: &'a [u32],
}

impl<'a> Lists<'a> {
    fn next(line: &mut Line<'a>, head: &[u32]) -> Option<Self> {
        Some(Lists {
            records: line.next_words(head, 1)?,
            index: next_index(line, head, 2)?,
            ids: line.next_words(head, 7)?,
            times: line.next_floats(head, 8)?,
            weights: line.next_floats(head, 9)?,
            lengths: line.next_words(head, 10)?,
        })
    }
}

// The word of the C entry for one mobility peak. The C entries take what they are handed one by one, and so do the two calls.
fn answer_one(
    head: &[u32],
    l: &Lists<'_>,
    out: &mut [u32],
    raw: &mut [f32],
    smooth: &mut [f32],
    order: &mut [u32],
) -> u64 {
    c_expand::one::rubzolena_expand_im_peak(
        l.records,
        l.index.starts,
        l.index.bins,
        l.index.offsets,
        l.index.scans,
        l.index.readings,
        l.ids,
        l.times,
        word(head, 11),
        word(head, 12),
        word(head, 13),
        word(head, 14),
        word(head, 15),
        float(head, 16),
        word(head, 17),
        float(head, 18),
        float(head, 19),
        float(head, 20),
        word(head, 21),
        float(head, 22),
        word(head, 23),
        l.weights,
        word(head, 24),
        out,
        raw,
        smooth,
        order,
    )
}

// The word of the C entry for many.
fn answer_many(
    head: &[u32],
    l: &Lists<'_>,
    out: &mut [u32],
    counts: &mut [u32],
    raw: &mut [f32],
    smooth: &mut [f32],
    order: &mut [u32],
) -> u64 {
    c_expand::many::rubzolena_expand_many_im_peaks(
        l.records,
        l.index.starts,
        l.index.bins,
        l.index.offsets,
        l.index.scans,
        l.index.readings,
        l.ids,
        l.times,
        word(head, 11),
        word(head, 12),
        word(head, 13),
        word(head, 14),
        word(head, 15),
        float(head, 16),
        word(head, 17),
        float(head, 18),
        float(head, 19),
        float(head, 20),
        word(head, 21),
        float(head, 22),
        word(head, 23),
        l.weights,
        l.lengths,
        word(head, 24),
        out,
        counts,
        raw,
        smooth,
        order,
    )
}

pub(crate) fn agrees(line: &mut Line<'_>) -> Option<bool> {
    let head = line.take_words(30)?;
    let lists = Lists::next(line, head)?;
    let stored = Stored::next(line, 2)?;
    let mut out = [BEFORE; ROOM];
    let mut counts = [BEFORE; ROOM];
    let mut raw = [7f32; ROOM];
    let mut smooth = [7f32; ROOM];
    let mut order = [BEFORE; ROOM];
    let lent_out = lent(&mut out, head, 25);
    let lent_counts = lent(&mut counts, head, 26);
    let lent_raw = lent(&mut raw, head, 27);
    let lent_smooth = lent(&mut smooth, head, 28);
    let lent_order = lent(&mut order, head, 29);
    // 11 or 12: the two share all but the call, so they are told apart at it.
    let r = if word(head, 0) == 11 {
        answer_one(head, &lists, lent_out, lent_raw, lent_smooth, lent_order)
    } else {
        answer_many(
            head,
            &lists,
            lent_out,
            lent_counts,
            lent_raw,
            lent_smooth,
            lent_order,
        )
    };
    let used = stored.used(lists.ids.len());
    Some(
        stored.is(r)
            & has(&counts, line.take_words(stored.count(1))?)
            & has(&out, line.rest())
            & kept(&patterns(&raw), used)
            & kept(&patterns(&smooth), used)
            & kept(&order, used),
    )
}
