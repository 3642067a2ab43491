// A line of the first call: 10; the lengths of record, frame numbers and times; the nine numbers of the parameters; the words that are
// lent; the three lists. Then the number, the count, and the window.
use super::lines::{BEFORE, ROOM, Stored, has, lent};
use test_hex_lines::parts::{Line, float, word};

pub(crate) fn agrees(line: &mut Line<'_>) -> Option<bool> {
    let head = line.take_words(14)?;
    let record = line.next_words(head, 1)?;
    let ids = line.next_words(head, 2)?;
    let times = line.next_floats(head, 3)?;
    let stored = Stored::number_and_count(line)?;
    let mut out = [BEFORE; ROOM];
    let r = c_rt::window::rubzolena_expand_window(
        record,
        ids,
        times,
        word(head, 4),
        float(head, 5),
        word(head, 6),
        float(head, 7),
        float(head, 8),
        float(head, 9),
        word(head, 10),
        float(head, 11),
        word(head, 12),
        lent(&mut out, head, 13),
    );
    Some(stored.is(r) & has(&out, line.rest()))
}
