// A line of a frame: 1; the lengths of its TOF values, scans and readings; the scale, the count of scans and the points before it; the
// words that are lent of the seven lists; the three lists. Then the number, the counts of bins, offsets and points, and these.
use super::lines::{BEFORE, ROOM, Stored, has, kept, lent};
use test_hex_lines::parts::{Line, patterns, word};

pub(crate) fn agrees(line: &mut Line<'_>) -> Option<bool> {
    let head = line.take_words(17)?;
    let tofs = line.next_words(head, 1)?;
    let points = line.next_words(head, 2)?;
    let values = line.next_floats(head, 3)?;
    let stored = Stored::next(line, 3)?;
    let mut bins = [BEFORE; ROOM];
    let mut offsets = [BEFORE; ROOM];
    let mut scans = [BEFORE; ROOM];
    let mut readings = [7f32; ROOM];
    let mut keys = [BEFORE; ROOM];
    let mut order = [BEFORE; ROOM];
    let mut spare = [BEFORE; ROOM];
    let r = c_frames::view::rubzolena_build_frame_bin_view(
        tofs,
        points,
        values,
        word(head, 4),
        word(head, 5),
        word(head, 6),
        word(head, 7),
        word(head, 8),
        word(head, 9) as usize,
        lent(&mut bins, head, 10),
        lent(&mut offsets, head, 11),
        lent(&mut scans, head, 12),
        lent(&mut readings, head, 13),
        lent(&mut keys, head, 14),
        lent(&mut order, head, 15),
        lent(&mut spare, head, 16),
    );
    let used = stored.used(tofs.len());
    Some(
        stored.is(r)
            & has(&bins, line.take_words(stored.count(0))?)
            & has(&offsets, line.take_words(stored.count(1))?)
            & has(&scans, line.take_words(stored.count(2))?)
            & has(&patterns(&readings), line.take_words(stored.count(2))?)
            & line.rest().is_empty()
            & kept(&keys, used)
            & kept(&order, used)
            & kept(&spare, used),
    )
}
