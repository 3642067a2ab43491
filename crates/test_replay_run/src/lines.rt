// Lists that are lent, and the answer of a line.
ghost use Rattle.std.specs.Prelude.{◌≤◌, ◌<◌, ◌+◌};

use frames_index::FrameIndex;
use test_hex_lines::parts::{Line, front, word};

// The words that a line may have, and those that are lent at most.
pub(crate) const ROOM: usize = 1024;

// What a lent list holds at first; as a float, 7.0.
pub(crate) const BEFORE: u32 = 0x40e0_0000;

// What is lent of a list: as many places as word i of a line's head says. `test_replay_answers` counts those in records, and `test_hex_lines` has the
// part that both share, `front`.
pub(crate) fn lent<'a, T>(list: &'a mut [T; ROOM], head: &[u32], i: usize) -> &'a mut [T] {
    front(list, word(head, i) as usize)
}

// The index whose five lists are the next of a line, with their lengths in its head from place i on.
pub(crate) fn next_index<'a>(line: &mut Line<'a>, head: &[u32], i: usize) -> Option<FrameIndex<'a>>
    requires { i + 4 < 0x1_0000_0000_0000_0000 }
{
    Some(FrameIndex {
        starts: line.next_words(head, i)?,
        bins: line.next_words(head, i + 1)?,
        offsets: line.next_words(head, i + 2)?,
        scans: line.next_words(head, i + 3)?,
        readings: line.next_floats(head, i + 4)?,
    })
}

// A number and the counts behind it, as a line has them.
#[derive(Clone, Copy)]
pub(crate) struct Stored<'a> {
    words: &'a [u32],
}

impl<'a> Stored<'a> {
    // The next words of a line: the number, and so many counts.
    pub(crate) fn next(line: &mut Line<'a>, counts: usize) -> Option<Self>
        requires { counts ≤ 3 }
    {
        Some(Stored {
            words: line.take_words(1 + counts)?,
        })
    }

    // The number, and one count, which is 0 where the line ends before it.
    pub(crate) fn number_and_count(line: &mut Line<'a>) -> Option<Self> {
        let n = line.rest().len().clamp(1, 2);
        Some(Stored {
            words: line.take_words(n)?,
        })
    }

    pub(crate) fn count(self, i: usize) -> usize
        requires { i ≤ 3 }
        ensures { result < 0x1_0000_0000 }
    {
        word(self.words, i + 1) as usize
    }

    // Whether a call answered the number and the first count.
    pub(crate) fn is(self, r: u64) -> bool {
        r == u64::from(word(self.words, 1)) * 64 + u64::from(word(self.words, 0))
    }

    // What of scratch may have changed: so many places of an accepted call.
    pub(crate) fn used(self, n: usize) -> usize {
        if word(self.words, 0) == 0 { n } else { 0 }
    }
}

// Whether a lent list has some words at its front and is as it was past them.
pub(crate) fn has(list: &[u32; ROOM], words: &[u32]) -> bool {
    list.starts_with(words) && kept(list, words.len())
}

// Whether a lent list is as it was from a place on.
pub(crate) fn kept(list: &[u32; ROOM], from: usize) -> bool {
    test_hex_lines::parts::kept(list, from, BEFORE)
}
