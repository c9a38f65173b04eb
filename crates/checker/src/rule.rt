// The refusals of rules: 6, 7 and 8.
ghost use Rattle.std.specs.Prelude.{◌≡◌, ◌<◌};
ghost use Rattle.rules.specs.Kinds.{kind_of};
ghost use Rattle.problem.specs.Lent.{rule_count};
ghost use Rattle.problem.specs.Named.{kind_named};
ghost use Rattle.problem.specs.Reading.{rule_of};
ghost use Rattle.checker.specs.Tests.{is_field, are_fields, is_fitting};
ghost use Rattle.checker.specs.Refusal.{first_of, rule_refusal};

use crate::{Refusal, fit};
use problem::kinds::{Kind, Place};
use problem::{FIELDS, Fields, STRIDE};

// Whether a word field is as its kind asks: below the number of words where it is used, else 0.
fn is_field(used: bool, x: usize, count: usize) -> bool
    ensures { result ≡ is_field used count x }
{
    if used { x < count } else { x == 0 }
}

// Whether all fields of a rule of this kind are as the kind asks.
#[tactic(auto, unfolding(crate::specs::Tests::are_fields))]
fn are_fields(kind: Kind, x: Fields, count: usize) -> bool
    requires { kind_named kind ≡ kind_of x.kind }
    ensures { result ≡ are_fields count (rule_of x) }
{
    let is_right = |place| is_field(kind.uses(place), x.word(place), count);
    let k = kind.uses_k() | (x.k == 0);
    is_right(Place::R) & (is_right(Place::A) & (is_right(Place::B) & (is_right(Place::S) & k)))
}

// Whether widths and k of a rule of this kind are as the kind asks.
#[tactic(auto, unfolding(crate::specs::Tests::is_fitting))]
fn is_fitting(kind: Kind, words: &[u64], x: Fields) -> bool
    requires { kind_named kind ≡ kind_of x.kind }
    ensures { result ≡ is_fitting words.now (rule_of x) }
{
    let w = problem::widths_of(words, x.words());
    fit::fits(kind.class(), w, u64::from(x.k))
}

// Refusals 6, 7 and 8 of rule n.
fn rule_refusal(words: &[u64], rules: &[u8], n: usize) -> Result<(), Refusal>
    requires { n < rule_count rules.now }
    ensures { result ≡ rule_refusal words.now rules.now n }
{
    let x = problem::fields_of(rules, n);
    let Ok(kind) = Kind::try_from(x.kind) else {
        return Err(Refusal::Kind(n));
    };
    if !are_fields(kind, x, words.len() / STRIDE) {
        return Err(Refusal::Field(n));
    }
    if !is_fitting(kind, words, x) {
        return Err(Refusal::Fit(n));
    }
    Ok(())
}

// Refusals 6, 7 and 8, rule by rule.
pub fn rules_refusal(words: &[u64], rules: &[u8]) -> Result<(), Refusal>
    ensures { result ≡ first_of (rule_count rules.now) (rule_refusal words.now rules.now) }
{
    for n in 0..rules.len() / FIELDS {
        rule_refusal(words, rules, n)?;
    }
    Ok(())
}
