// What a C entry answers as one word (specs/, proofs/).
#![tactic(auto)]

ghost use Rattle.std.specs.Prelude.{◌≡◌, ◌<◌, ◌^◌};
ghost use Rattle.c_word.specs.Word.{word_of, itself};
ghost use Rattle.refusal.specs.Numbered.{says};

use refusal::Refusal;

// The word of a count, or of the number that refuses.
#[tactic(auto, unfolding(crate::specs::Word::as_word))]
pub fn word_of(answer: Result<usize, Refusal>) -> u64
    requires { word_of itself (says answer) < 2 ^ 64 }
    ensures { result ≡ word_of itself (says answer) }
{
    match answer {
        Ok(count) => count as u64 * 64,
        Err(refusal) => u64::from(refusal.number()),
    }
}
