// Parts of a line. Past the end of a line every word is 0.
ghost use Rattle.std.specs.Prelude.{◌≡◌, min, take, drop};
ghost use Rattle.test_replay_stitching.specs.Replay.{word, room};

use test_hex_lines::parts::{from_place, word};

// The words that a line may have.
pub(crate) const ROOM: usize = 4096;

// A word as a count of words that are lent.
pub(crate) fn lent(line: &[u32], i: usize) -> usize
    ensures { result ≡ min (word line.now i) room }
{
    (word(line, i) as usize).min(ROOM)
}

// At most n words from a place on.
pub(crate) fn part(list: &[u32], from: usize, n: usize) -> &[u32]
    ensures { result.now ≡ take n (drop from list.now) }
{
    let rest = from_place(list, from);
    rest.get(..n).unwrap_or(rest)
}
