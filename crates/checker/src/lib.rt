// A problem checked: its sizes, its words, its rules and its limit, in that order. The first refusal and its place come back; nothing lent is written.
#![tactic(auto)]

mod fit;
mod proper;
mod refusal;
mod rule;
mod word;

ghost use Rattle.std.specs.Prelude.{◌≡◌};
ghost use Rattle.checker.specs.Tests.{sized, one_to};
ghost use Rattle.checker.specs.Refusal.{refusal, limit_refusal, refusal_with};

use problem::{FIELDS, GUESSES, RULES, STRIDE, WORDS};
pub use proper::Proper;
pub use refusal::Refusal;

// Whether x is 1 to m.
fn one_to(m: u64, x: u64) -> bool
    ensures { result ≡ one_to m x }
{
    (1 <= x) & (x <= m)
}

// Whether there are at most 32 words and 252 rules, none cut short.
fn is_sized(words: &[u64], rules: &[u8]) -> bool
    ensures { result ≡ sized words.now rules.now }
{
    let w = words.len();
    let r = rules.len();
    (w % STRIDE == 0) & ((r % FIELDS == 0) & ((w / STRIDE <= WORDS) & (r / FIELDS <= RULES)))
}

// The first refusal of a problem for a call that takes no limit.
pub fn first_refusal(words: &[u64], rules: &[u8]) -> Result<(), Refusal>
    ensures { result ≡ refusal words.now rules.now }
{
    if !is_sized(words, rules) {
        return Err(Refusal::Size);
    }
    word::words_refusal(words)?;
    rule::rules_refusal(words, rules)
}

// The refusal of a limit.
pub fn limit_refusal(limit: u32) -> Result<(), Refusal>
    ensures { result ≡ limit_refusal limit }
{
    if limit > GUESSES {
        return Err(Refusal::Limit);
    }
    Ok(())
}

// Whether a problem is proper: OK, or the first refusal in order.
pub fn check(words: &[u64], rules: &[u8], limit: u32) -> Result<(), Refusal>
    ensures { result ≡ refusal_with limit words.now rules.now }
{
    first_refusal(words, rules)?;
    limit_refusal(limit)
}
