// What the call of a line is lent, and the comparison of its answer with the line.
use test_hex_lines::parts::{Line, kept, patterns, word};

// The words that a line may have.
pub(crate) const ROOM: usize = 4096;

// What scratch holds at first.
const BEFORE: f32 = 7.0;

// What is lent: floats for a row, words for records, and scratch.
#[derive(Drop)]
pub(crate) struct Lent {
    pub v: [f32; ROOM],
    pub out: [u32; ROOM],
    pub scratch: [f32; ROOM],
}

// An answer: its first words, how many more stand in a lent list, and from where on scratch must be as it was.
#[derive(Drop)]
pub(crate) struct Answer<const N: usize> {
    pub words: [u32; N],
    pub rest: usize,
    pub scratched: usize,
}

impl<const N: usize> Answer<N> {
    // An answer of words alone.
    pub(crate) fn of(words: [u32; N]) -> Self {
        Answer {
            words,
            rest: 0,
            scratched: 0,
        }
    }

    // Whether the answer, and what is lent after it, is what is left of a line.
    pub(crate) fn judged(self, lent: &Lent, mut line: Line<'_>) -> Option<bool> {
        let head = line.take_words(N)?;
        let rest = line.take_words(self.rest)?;
        Some(
            (head == self.words.as_slice())
                & line.rest().is_empty()
                & lent.holds(rest)
                & kept(
                    &patterns(&lent.scratch),
                    self.scratched,
                    numeric::word_of(BEFORE),
                ),
        )
    }
}

impl Lent {
    pub(crate) fn new() -> Self {
        Lent {
            v: [0.0; ROOM],
            out: [0; ROOM],
            scratch: [BEFORE; ROOM],
        }
    }

    // Whether the lent words are those of a list, or the bit patterns of the lent floats where the words are all 0, and 0 past them.
    fn holds(&self, words: &[u32]) -> bool {
        self.out
            .iter()
            .zip(&self.v)
            .enumerate()
            .all(|(i, (w, x))| word(words, i) == *w | numeric::word_of(*x))
    }
}
