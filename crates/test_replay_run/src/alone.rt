// Lines of a lone trace. 7, noise: the length of the signal and its readings; then the number and the bits of the noise. 8, retention
// peaks: the lengths of the smoothed trace, the raw one and the times; the threshold's kind and float, separation and width; the words
// that are lent for records and scratch; the three lists. Then the number, the count, and the records. 9, the fallback: the lengths of the
// trace, frame numbers, times and record; fraction and first identity; the words that are lent; the four lists. Then the number, the
// count, and the record.
use super::lines::{BEFORE, ROOM, Stored, has, kept, lent};
use test_hex_lines::parts::{Line, float, word};

pub(crate) fn noise_agrees(line: &mut Line<'_>) -> Option<bool> {
    let head = line.take_words(2)?;
    let signal = line.next_floats(head, 1)?;
    let stored = Stored::number_and_count(line)?;
    Some(stored.is(c_rt::trace::rubzolena_robust_noise_mad(signal)))
}

pub(crate) fn search_agrees(line: &mut Line<'_>) -> Option<bool> {
    let head = line.take_words(10)?;
    let smoothed = line.next_floats(head, 1)?;
    let raw = line.next_floats(head, 2)?;
    let times = line.next_floats(head, 3)?;
    let stored = Stored::number_and_count(line)?;
    let mut out = [BEFORE; ROOM];
    let mut scratch = [BEFORE; ROOM];
    let r = c_rt::search::rubzolena_find_rt_peaks(
        smoothed,
        raw,
        times,
        word(head, 4),
        float(head, 5),
        float(head, 6),
        float(head, 7),
        lent(&mut out, head, 8),
        lent(&mut scratch, head, 9),
    );
    let used = stored.used(smoothed.len());
    Some(stored.is(r) & has(&out, line.rest()) & kept(&scratch, used))
}

pub(crate) fn fallback_agrees(line: &mut Line<'_>) -> Option<bool> {
    let head = line.take_words(8)?;
    let trace = line.next_floats(head, 1)?;
    let ids = line.next_words(head, 2)?;
    let times = line.next_floats(head, 3)?;
    let record = line.next_words(head, 4)?;
    let stored = Stored::number_and_count(line)?;
    let mut out = [BEFORE; ROOM];
    let r = c_rt::single::rubzolena_fallback_rt_peak(
        trace,
        ids,
        times,
        record,
        float(head, 5),
        word(head, 6),
        lent(&mut out, head, 7),
    );
    Some(stored.is(r) & has(&out, line.rest()))
}
