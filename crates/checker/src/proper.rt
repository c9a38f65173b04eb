// A problem that was checked.
ghost use Rattle.std.specs.Prelude.{◌≡◌, MatchResult, Ok, Err};
ghost use Rattle.problem.specs.Lent.{word_count, rule_count};
ghost use Rattle.checker.specs.Refusal.{refusal};

use crate::Refusal;
use problem::{FIELDS, STRIDE};

// The words and rules of a proper problem, as they are lent.
#[derive(Clone, Copy)]
pub struct Proper<'a> {
    pub words: &'a [u64],
    pub rules: &'a [u8],
    ghost fine: { refusal words.now rules.now ≡ Ok tt },
}

impl<'a> Proper<'a> {
    // The problem, or its first refusal for a call that takes no limit.
    pub fn new(words: &'a [u64], rules: &'a [u8]) -> Result<Proper<'a>, Refusal>
        ensures { MatchResult result (λ p. (p.words.now ≡ words.now) × (p.rules.now ≡ rules.now) × (refusal words.now rules.now ≡ Ok tt))
            (λ r. refusal words.now rules.now ≡ Err r) }
    {
        crate::first_refusal(words, rules)?;
        Ok(Proper { words, rules })
    }

    pub fn word_count(&self) -> usize
        ensures { result ≡ word_count self.now.words.now }
    {
        self.words.len() / STRIDE
    }

    pub fn rule_count(&self) -> usize
        ensures { result ≡ rule_count self.now.rules.now }
    {
        self.rules.len() / FIELDS
    }
}
