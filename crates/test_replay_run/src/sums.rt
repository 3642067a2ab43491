// A line of sums over an index: 2 and 3 for the marginals by frame and by scan, 4 for a trace around a row, 5 for one by bounds, 6 for
// those of many peaks; the lengths of starts, bins, offsets, scans and readings; the floats and the words of scratch that are lent; the
// length of the list of peaks; nine numbers, as the function takes them, and 0 for those that it does not take; the six lists. Then the
// number, the count, the count of the sums, and these.
use super::lines::{BEFORE, ROOM, Stored, has, kept, lent, next_index};
use frames_index::FrameIndex;
use test_hex_lines::parts::{Line, patterns, word};

// The word of the C entry, for the lists of a line. A match on the function, whose number the stored line has: the entries take different
// lists.
fn answer(
    head: &[u32],
    index: FrameIndex<'_>,
    list: &[u32],
    out: &mut [f32],
    windows: &mut [u32],
) -> u64 {
    let a = word(head, 9);
    let b = word(head, 10);
    let c = word(head, 11);
    let d = word(head, 12);
    let e = word(head, 13);
    let f = word(head, 14);
    let FrameIndex {
        starts,
        bins,
        offsets,
        scans,
        readings,
    } = index;
    match word(head, 0) {
        2 => c_frames::blocks::rubzolena_build_rt_marginal(
            starts, bins, offsets, scans, readings, a, b, c, d, e, f, out,
        ),
        3 => c_frames::blocks::rubzolena_build_im_marginal(
            starts, bins, offsets, scans, readings, a, b, c, d, e, f, out,
        ),
        4 => c_frames::peaks::rubzolena_rt_trace_for_im_peak(
            starts, bins, offsets, scans, readings, a, b, c, d, out,
        ),
        5 => c_frames::peaks::rubzolena_rt_trace_for_im_peak_by_bounds(
            starts,
            bins,
            offsets,
            scans,
            readings,
            a,
            b,
            c,
            d,
            e,
            f,
            word(head, 15),
            word(head, 16),
            word(head, 17),
            out,
        ),
        _ => c_frames::lists::rubzolena_rt_traces_for_im_peaks_by_bounds(
            starts, bins, offsets, scans, readings, a, b, c, d, list, e, out, windows,
        ),
    }
}

pub(crate) fn agrees(line: &mut Line<'_>) -> Option<bool> {
    let head = line.take_words(18)?;
    let index = next_index(line, head, 1)?;
    let list = line.next_words(head, 8)?;
    let stored = Stored::next(line, 2)?;
    let mut out = [7f32; ROOM];
    let mut windows = [BEFORE; ROOM];
    let r = answer(
        head,
        index,
        list,
        lent(&mut out, head, 6),
        lent(&mut windows, head, 7),
    );
    let used = stored.used(4 * stored.count(0));
    Some(
        stored.is(r)
            & has(&patterns(&out), line.take_words(stored.count(1))?)
            & line.rest().is_empty()
            & kept(&windows, used),
    )
}
