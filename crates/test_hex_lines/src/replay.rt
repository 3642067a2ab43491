// Answers replayed: each line that has ended is judged and counted.
ghost use Rattle.std.specs.Prelude.{◌≡◌, ◌≤◌, ◌^◌, ℕ, List, Bool, length};
ghost use Rattle.std.specs.List.{fold};
ghost use Rattle.test_hex_lines.specs.Judges.{Judges};
ghost use Rattle.test_hex_lines.specs.Lines.{counting, ReplayedIn, at_start, replayed};

use super::LineReader;
use std::fmt;
use std::io::Read;
use std::marker::Model;

// How many lines with words there were, and how many of them differ from what they should say.
#[derive(Clone, Copy, Debug, Default, PartialEq, Eq)]
pub struct Tally {
    pub lines: u64,
    pub differ: u64,
}

impl Tally {
    // Counts a line that has ended, if it has words.
    #[tactic(auto, unfolding(crate::specs::Lines::counting))]
    pub fn count(&mut self, words: &[u32], agrees: bool)
        ensures { self.new ≡ counting self.old words.now agrees }
    {
        if words.is_empty() {
            return;
        }
        self.lines = self.lines.wrapping_add(1);
        if !agrees {
            self.differ = self.differ.wrapping_add(1);
        }
    }
}

impl fmt::Display for Tally {
    fn fmt<W: fmt::Write>(&self, f: &mut fmt::Formatter<W>) -> fmt::Result {
        write!(f, "{} answers replayed, {} differ", self.lines, self.differ)
    }
}

// What is read and what is counted.
#[derive(Drop)]
pub struct Replay<'a> {
    line: LineReader<'a>,
    tally: Tally,
}

impl<'a> Model for Replay<'a> {
    ghost Value = { ReplayedIn };

    ghost view = { λ r. record { so_far = record { line = r.line.line; tally = r.tally }; room = r.line.room } };
}

impl<'a> Replay<'a> {
    // A line has room for as many words as the lent list is long.
    pub fn new(words: &'a mut [u32]) -> Replay<'a>
        ensures start { result.so_far ≡ at_start }
        ensures room { result.room ≡ length words.old }
    {
        Replay {
            line: LineReader::new(words),
            tally: Tally::default(),
        }
    }

    // One byte more; a line that has ended is judged and counted.
    #[tactic(auto, unfolding(crate::specs::Lines::replayed))]
    pub fn feed<F: Fn(&[u32]) -> bool>(&mut self, b: u8, judge: &F)
        requires { F.IsAlwaysCallable judge.now }
        ensures read { (agrees : List ℕ → Bool) → Judges F.Fn judge.now agrees → self.new.so_far ≡ replayed agrees self.old.room self.old.so_far b }
        ensures room { self.new.room ≡ self.old.room }
    {
        self.line.feed(b);
        if self.line.has_ended() {
            let words = self.line.words();
            let agrees = judge(words);
            self.tally.count(words, agrees);
        }
    }

    pub fn feed_all<F: Fn(&[u32]) -> bool>(&mut self, bytes: &[u8], judge: &F)
        requires { F.IsAlwaysCallable judge.now }
        ensures read { (agrees : List ℕ → Bool) → Judges F.Fn judge.now agrees → self.new.so_far ≡ fold (replayed agrees self.old.room) self.old.so_far bytes.now }
        ensures room { self.new.room ≡ self.old.room }
    {
        for &b in bytes {
            self.feed(b, judge);
        }
    }
}

// Replays what is read from input, to its end or up to where it cannot be read, and counts its lines. The contract speaks of some bytes: it
// cannot say that they are those of the input.
pub fn replay_all<const ROOM: usize, F: Fn(&[u32]) -> bool>(
    input: &mut impl Read,
    judge: F,
) -> Tally
    requires room { ROOM ≤ 2 ^ 32 }
    requires judge { F.IsAlwaysCallable judge }
    ensures { (bytes : List ℕ) × ((agrees : List ℕ → Bool) → Judges F.Fn judge agrees → result ≡ (fold (replayed agrees ROOM) at_start bytes).tally) }
{
    let mut line = [0u32; ROOM];
    let mut replay = Replay::new(&mut line);
    let mut buf = [0u8; 65536];
    // A `loop` would need a measure, and an input has none.
    for _ in 0..u64::MAX {
        let Ok(k) = input.read(&mut buf) else {
            break;
        };
        if k == 0 {
            break;
        }
        replay.feed_all(&buf[..k], &judge);
    }
    replay.tally
}
