// Lines of hexadecimal words, as the replay programs read them: a byte at a time, words parted by any other byte, a line
// ended by a line feed. A line that starts with '#' has no words.
#![tactic(auto)]

pub mod parts;
pub mod replay;

ghost use Rattle.std.specs.Prelude.{◌≡◌, ◌<◌, ◌≤◌, length, take, IfSome};
ghost use Rattle.test_hex_lines.specs.Lines.{LineIn, no_line, has_ended, digit_of, with_digit, closed_by, next_in, fed};

use std::marker::Model;

// Whether a line goes on, is passed over, or has ended.
#[derive(Clone, Copy, Debug, PartialEq, Eq)]
pub enum Stage {
    Words,
    PassedOver,
    Ended,
}

// What has been read of a line: how many whole words, the word that is being read, and how the line stands.
#[derive(Clone, Copy)]
pub struct Reading {
    pub words: usize,
    pub word: Option<u32>,
    pub stage: Stage,
}

// A line that is read into a lent list: the list, which has the whole words at its front, and what has been read. The list and its count
// stand side by side: a slice of the words so far could not grow in the list.
#[derive(Drop)]
pub struct LineReader<'a> {
    words: &'a mut [u32],
    reading: Reading,
}

impl<'a> Model for LineReader<'a> {
    ghost Value = { LineIn };

    ghost view = { λ r. record { line = record { words = take r.reading.words r.words.now; word = r.reading.word; stage = r.reading.stage }; room = length r.words.now } };

    ghost invariant = { λ r. r.reading.words ≤ length r.words.now };
}

// The value of a hexadecimal digit. `to_digit` takes capital letters as well, which part words here.
#[tactic(auto, unfolding(crate::specs::Lines::digit_of))]
fn digit(b: u8) -> Option<u8>
    ensures value { result ≡ digit_of b }
    ensures low { IfSome result (λ d. d < 16) }
{
    match b {
        b'0'..=b'9' => Some(b - b'0'),
        b'a'..=b'f' => Some(b - b'a' + 10),
        _ => None,
    }
}

// A word with one digit more, of which the last eight count.
fn with_digit(word: Option<u32>, d: u8) -> u32
    requires { d < 16 }
    ensures { result ≡ with_digit word d }
{
    word.unwrap_or(0) % 0x1000_0000 * 16 + u32::from(d)
}

impl Reading {
    // Nothing has been read yet.
    pub fn new() -> Reading
        ensures { result ≡ record { words = 0; word = no_line.word; stage = no_line.stage } }
    {
        Reading {
            words: 0,
            word: None,
            stage: Stage::Words,
        }
    }
}

impl<'a> LineReader<'a> {
    // Nothing has been read yet; a line has room for as many words as the list is long.
    pub fn new(words: &'a mut [u32]) -> LineReader<'a>
        ensures line { result.line ≡ no_line }
        ensures room { result.room ≡ length words.old }
    {
        LineReader {
            words,
            reading: Reading::new(),
        }
    }

    // Goes on with a line: its whole words stand at the front of the list.
    pub fn resume(words: &'a mut [u32], reading: Reading) -> LineReader<'a>
        requires { reading.words ≤ length words.old }
        ensures line { result.line ≡ record { words = take reading.words words.old; word = reading.word; stage = reading.stage } }
        ensures room { result.room ≡ length words.old }
    {
        LineReader { words, reading }
    }

    // What has been read, to be kept beside the list.
    #[tactic(auto, using(crate::proofs::Laws::length_taken))]
    pub fn reading(&self) -> Reading
        ensures { result ≡ record { words = length self.now.line.words; word = self.now.line.word; stage = self.now.line.stage } }
    {
        let LineReader { reading, .. } = self;
        *reading
    }

    // The whole words.
    pub fn words(&self) -> &[u32]
        ensures { result.now ≡ self.now.line.words }
    {
        &self.words[..self.reading.words]
    }

    // The whole words, when the line is done with: the front of the list that was lent.
    pub fn into_words(self) -> &'a [u32]
        ensures { result.now ≡ self.entry.line.words }
    {
        let n = self.reading.words;
        let words = self.words;
        &words[..n]
    }

    #[tactic(auto, unfolding(crate::specs::Lines::has_ended))]
    pub fn has_ended(&self) -> bool
        ensures { result ≡ has_ended self.now.line }
    {
        self.reading.stage == Stage::Ended
    }

    // The word that is being read has ended: it stands behind the others, and is dropped where there is no room.
    #[tactic(auto, unfolding(crate::specs::Lines::closed_by, crate::specs::Lines::with_word))]
    fn close(&mut self, stage: Stage)
        ensures line { self.new.line ≡ closed_by self.old.room stage self.old.line }
        ensures room { self.new.room ≡ self.old.room }
    {
        if let Some(word) = self.reading.word {
            if self.reading.words < self.words.len() {
                self.words[self.reading.words] = word;
                self.reading.words += 1;
            }
        }
        self.reading.word = None;
        self.reading.stage = stage;
    }

    // One byte more of a line that has not ended.
    #[tactic(auto, unfolding(crate::specs::Lines::next_in, crate::specs::Lines::is_passed), using(crate::proofs::Laws::length_taken))]
    fn next(&mut self, b: u8)
        ensures line { self.new.line ≡ next_in self.old.room self.old.line b }
        ensures room { self.new.room ≡ self.old.room }
    {
        if b == b'\n' {
            self.close(Stage::Ended);
        } else if self.reading.stage == Stage::PassedOver {} else if b == b'#'
            && self.reading.words == 0
        {
            self.reading.word = None;
            self.reading.stage = Stage::PassedOver;
        } else if let Some(d) = digit(b) {
            self.reading.word = Some(with_digit(self.reading.word, d));
            self.reading.stage = Stage::Words;
        } else {
            self.close(Stage::Words);
        }
    }

    // One byte more. The byte after a line's end is the first of the next line.
    #[tactic(auto, unfolding(crate::specs::Lines::fed, crate::specs::Lines::has_ended))]
    pub fn feed(&mut self, b: u8)
        ensures line { self.new.line ≡ fed self.old.room self.old.line b }
        ensures room { self.new.room ≡ self.old.room }
    {
        if self.reading.stage == Stage::Ended {
            self.reading.words = 0;
            self.reading.word = None;
            self.reading.stage = Stage::Words;
        }
        self.next(b);
    }
}
