// The refusals of words: 4 and 5.
ghost use Rattle.std.specs.Prelude.{◌≡◌, ◌<◌};
ghost use Rattle.problem.specs.Lent.{word_count};
ghost use Rattle.checker.specs.Refusal.{first_of, word_refusal};

use crate::Refusal;
use problem::STRIDE;

// Refusals 4 and 5 of word i.
fn word_refusal(words: &[u64], i: usize) -> Result<(), Refusal>
    requires { i < word_count words.now }
    ensures { result ≡ word_refusal words.now i }
{
    let at = STRIDE * i;
    let w = words[at];
    if !crate::one_to(64, w) {
        return Err(Refusal::Width(i));
    }
    if !words::is_bounded(w, words[at + 1], words[at + 2]) {
        return Err(Refusal::Table(i));
    }
    Ok(())
}

// Refusals 4 and 5, word by word.
pub fn words_refusal(words: &[u64]) -> Result<(), Refusal>
    ensures { result ≡ first_of (word_count words.now) (word_refusal words.now) }
{
    for i in 0..words.len() / STRIDE {
        word_refusal(words, i)?;
    }
    Ok(())
}
