// Parts of a line. Past the end of a line every word is 0.
ghost use Rattle.std.specs.Prelude.{◌≡◌, ◌↔◌, ℕ, ◌≤◌, ◌<◌, length, take, drop, slice_index, slice_index_or, IsSome, MatchOption};
ghost use Rattle.test_hex_lines.specs.Parts.{IsLeft, float_in, pattern_in, all_are};

pub fn word(words: &[u32], i: usize) -> u32
    ensures { result ≡ slice_index words.now i }
{
    words.get(i).copied().unwrap_or(0)
}

// The same word as a float.
pub fn float(words: &[u32], i: usize) -> f32
    ensures { result ≡ float_in words.now i }
{
    numeric::float_of(word(words, i))
}

// What is left of a line that is taken apart from its front: its words, and floats at the same places.
#[derive(Clone, Copy)]
pub struct Line<'a> {
    words: &'a [u32],
    floats: &'a [f32],
}

impl<'a> Line<'a> {
    pub fn new(words: &'a [u32], floats: &'a [f32]) -> Line<'a>
        ensures { (result.words.now ≡ words.now) × (result.floats.now ≡ floats.now) }
    {
        Line { words, floats }
    }

    // All words that are left.
    pub fn rest(self) -> &'a [u32]
        ensures { result.now ≡ self.entry.words.now }
    {
        self.words
    }

    // Takes the next n words; None, and nothing is taken, where the line is too short.
    pub fn take_words(&mut self, n: usize) -> Option<&'a [u32]>
        ensures enough { IsSome result ↔ (n ≤ length self.old.words.now) × (n ≤ length self.old.floats.now) }
        ensures taken { MatchOption result (IsLeft 0 self.old self.new) (λ list. (list.now ≡ take n self.old.words.now) × IsLeft n self.old self.new) }
    {
        let floats = self.floats.get(n..)?;
        let list = self.words.split_off(..n)?;
        self.floats = floats;
        Some(list)
    }

    // Takes the same places as floats.
    pub fn take_floats(&mut self, n: usize) -> Option<&'a [f32]>
        ensures enough { IsSome result ↔ (n ≤ length self.old.words.now) × (n ≤ length self.old.floats.now) }
        ensures taken { MatchOption result (IsLeft 0 self.old self.new) (λ list. (list.now ≡ take n self.old.floats.now) × IsLeft n self.old self.new) }
    {
        let floats = self.floats.get(..n)?;
        self.take_words(n)?;
        Some(floats)
    }

    // Takes the next list, whose length is word i of a head.
    pub fn next_words(&mut self, head: &[u32], i: usize) -> Option<&'a [u32]>
        ensures enough { IsSome result ↔ (slice_index head.now i ≤ length self.old.words.now) × (slice_index head.now i ≤ length self.old.floats.now) }
        ensures taken { MatchOption result (IsLeft 0 self.old self.new) (λ list. (list.now ≡ take (slice_index head.now i) self.old.words.now) × IsLeft (slice_index head.now i) self.old self.new) }
    {
        self.take_words(word(head, i) as usize)
    }

    // Takes the next list, of floats.
    pub fn next_floats(&mut self, head: &[u32], i: usize) -> Option<&'a [f32]>
        ensures enough { IsSome result ↔ (slice_index head.now i ≤ length self.old.words.now) × (slice_index head.now i ≤ length self.old.floats.now) }
        ensures taken { MatchOption result (IsLeft 0 self.old self.new) (λ list. (list.now ≡ take (slice_index head.now i) self.old.floats.now) × IsLeft (slice_index head.now i) self.old self.new) }
    {
        self.take_floats(word(head, i) as usize)
    }
}

// The front of a lent list, all of it where it is shorter.
pub fn front<T>(list: &mut [T], n: usize) -> &mut [T]
    ensures { result.now ≡ take n list.old }
{
    let n = n.min(list.len());
    &mut list[..n]
}

// What stands from a place on, nothing past the end.
pub fn from_place(list: &[u32], from: usize) -> &[u32]
    ensures { result.now ≡ drop from list.now }
{
    list.get(from..).unwrap_or(&[])
}

// Whether a list holds one word from a place on.
pub fn kept(list: &[u32], from: usize, before: u32) -> bool
    ensures { result ≡ all_are before (drop from list.now) }
{
    from_place(list, from)
        .iter()
        .fold(true, |all, &w| all & (w == before))
}

// Words as floats, 0.0 past them. A loop: by `array::from_fn` the proof does not close, for the floats are told of as what the closure
// gives, and that is not read off its body.
pub fn spread<const ROOM: usize>(words: &[u32]) -> [f32; ROOM]
    ensures { (k : ℕ) → k < ROOM → slice_index_or result k (float_in words.now k) ≡ float_in words.now k }
{
    let mut floats = [0f32; ROOM];
    for (i, x) in floats.iter_mut().enumerate() {
        *x = float(words, i);
    }
    floats
}

// The bit patterns of floats. A loop: an array's `map` asks that further arrays of ROOM fit in memory, and each caller would have to show
// it.
pub fn patterns<const ROOM: usize>(floats: &[f32; ROOM]) -> [u32; ROOM]
    ensures { (k : ℕ) → k < ROOM → slice_index_or result k (pattern_in floats.now k) ≡ pattern_in floats.now k }
{
    let mut words = [0u32; ROOM];
    for (i, w) in words.iter_mut().enumerate() {
        *w = numeric::word_of(floats[i]);
    }
    words
}
