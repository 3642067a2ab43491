// Words and floats read from bytes, words written to bytes, and tests of words in bytes, which are those that params has of a slice.
ghost use Rattle.std.specs.Prelude.{◌≡◌, true, ◌++◌, ◌≤◌, ◌<◌, ◌+◌, ◌*◌, length, take, drop};
ghost use Rattle.limits.specs.Limits.{max_reading};
ghost use Rattle.numeric.specs.Numeric.{all_in_range};
ghost use Rattle.row_params.specs.Params.{all_up_to, rising};
ghost use Rattle.grid_word_bytes.specs.Bytes.{word_at, words_of, floats_of, bytes_of, with_word};

// The word of four bytes.
fn word_of(w: &[u8; 4]) -> u32
    ensures { result ≡ word_at w.now 0 }
{
    u32::from_le_bytes(*w)
}

// The word at place k.
pub fn word_at(b: &[u8], k: usize) -> u32
    requires { k * 4 + 4 ≤ length b.now }
    ensures { result ≡ word_at b.now k }
{
    let (words, _) = b.as_chunks::<4>();
    word_of(&words[k])
}

// Writes a word to place k.
pub fn put_word(b: &mut [u8], k: usize, w: u32)
    requires { k * 4 + 4 ≤ length b.old }
    ensures { b.new ≡ with_word b.old k w }
{
    let i = k * 4;
    b[i..i + 4].copy_from_slice(&w.to_le_bytes());
}

// Writes words to the front of `out`, each by its place: in a loop over `chunks_exact_mut` and `zip` the proof has no name for `out`.
pub fn put_words(out: &mut [u8], ws: &[u32])
    requires { length ws.now * 4 ≤ length out.old }
    ensures { out.new ≡ bytes_of ws.now ++ drop (length ws.now * 4) out.old }
{
    for (i, &w) in ws.iter().enumerate() {
        put_word(out, i, w);
    }
}

// Fills `out` with the floats from the word `from` on, where all are known to be in range: so each word is taken as it is. Each is read by
// its place: in a loop that zips `iter_mut` with the words the proof has no name for `out`.
pub fn decode_floats(b: &[u8], from: usize, out: &mut [f32])
    requires { ((from + length out.old) * 4 ≤ length b.now) × (all_in_range max_reading (floats_of b.now) ≡ true) }
    ensures { out.new ≡ take (length out.old) (drop from (floats_of b.now)) }
{
    for (i, value) in out.iter_mut().enumerate() {
        *value = f32::from_bits(word_at(b, from + i));
    }
}

// Whether every word is at most the limit; below the patterns of infinities and NaNs, whether every float is in range.
pub fn all_words_up_to(b: &[u8], limit: u32) -> bool
    ensures words { result ≡ all_up_to limit (words_of b.now) }
    ensures floats { limit < 0x7f80_0000 → result ≡ all_in_range limit (floats_of b.now) }
{
    let (words, _) = b.as_chunks::<4>();
    words
        .iter()
        .fold(true, |all, w| all & (word_of(w) <= limit))
}

// Whether every word is above the one before it. The loop of `all_neighbours` of row_params: that one's test takes copies, and of a closure
// that reads words from copies of their bytes the check infers nothing, so that it would need a clause of its own.
pub fn is_rising(b: &[u8]) -> bool
    ensures { result ≡ rising (words_of b.now) }
{
    let (words, _) = b.as_chunks::<4>();
    let Some((_, rest)) = words.split_first() else {
        return true;
    };
    words
        .iter()
        .zip(rest)
        .fold(true, |all, (last, w)| all & (word_of(last) < word_of(w)))
}

// Whether no word is above the limit, where it is known whether they rise: if so, the last is the highest. The flag is what the caller has
// found for a number of its own, and no value stands beside it.
pub fn axis_up_to(b: &[u8], rises: bool, limit: u32) -> bool
    requires { rises ≡ rising (words_of b.now) }
    ensures { result ≡ all_up_to limit (words_of b.now) }
{
    let (words, _) = b.as_chunks::<4>();
    match words.last() {
        Some(last) if rises => word_of(last) <= limit,
        _ => all_words_up_to(b, limit),
    }
}
