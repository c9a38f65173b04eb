// What a lent problem is: numbers that stand for words and rules, the fixed table of kinds, and a rule's fields, widths and bounds, read in one place.
#![tactic(auto)]

pub mod kinds;

ghost use Rattle.std.specs.Prelude.{◌≡◌, ◌+◌, ◌*◌, ◌<◌, ◌==◌, length};
ghost use Rattle.lists.specs.Lists.{at};
ghost use Rattle.rules.specs.Tight.{word};
ghost use Rattle.problem.specs.Lent.{fields, width_at};
ghost use Rattle.problem.specs.Named.{place_named};
ghost use Rattle.problem.specs.Places.{at_place, met};
ghost use Rattle.problem.specs.Reading.{fields_at, rule_of, words_of, pair_at, widths_of_words, bounds_of_words};

use kinds::Place;

// The stride, numbers a word: width, lo, hi.
pub const STRIDE: usize = 3;

// Bytes a rule: kind, r, a, b, s, k.
pub const FIELDS: usize = 6;

// The most words, rules and guesses.
pub const WORDS: usize = 32;

pub const RULES: usize = 252;

pub const GUESSES: u32 = 1000000;

// The fields of a rule.
#[derive(Clone, Copy, Debug, PartialEq, Eq)]
pub struct Fields {
    pub kind: u8,
    pub r: u8,
    pub a: u8,
    pub b: u8,
    pub s: u8,
    pub k: u8,
}

impl Fields {
    // The number of the word that stands at a place.
    pub fn word(self, place: Place) -> usize
        ensures { (result ≡ word (rule_of self) (place_named place)) × (result < 256) }
    {
        usize::from(self.words().at(place))
    }

    // The numbers of the words that stand at the places.
    pub fn words(self) -> Places<u8>
        ensures { result ≡ words_of self }
    {
        Places {
            r: self.r,
            a: self.a,
            b: self.b,
            s: self.s,
        }
    }
}

// Two bounds, low and high.
#[derive(Clone, Copy, Debug, PartialEq, Eq)]
pub struct Span {
    pub lo: u64,
    pub hi: u64,
}

impl Span {
    // Bounds that leave this value alone.
    pub fn fixed(value: u64) -> Span
        ensures { result ≡ record { lo = value; hi = value } }
    {
        Span {
            lo: value,
            hi: value,
        }
    }

    // Whether they leave one value.
    pub fn is_fixed(self) -> bool
        ensures { result ≡ (self.lo == self.hi) }
    {
        self.lo == self.hi
    }

    // What both leave, if the low bound then lies under the high one.
    pub fn meet(self, with: Span) -> Option<Span>
        ensures { result ≡ met self with }
    {
        let lo = self.lo | with.lo;
        let hi = self.hi & with.hi;
        (lo & hi == lo).then_some(Span { lo, hi })
    }
}

// What stands at each of a rule's places.
#[derive(Clone, Copy, Debug, PartialEq, Eq)]
pub struct Places<T> {
    pub r: T,
    pub a: T,
    pub b: T,
    pub s: T,
}

impl<T: Copy> Places<T> {
    pub fn at(self, place: Place) -> T
        ensures { result ≡ at_place self (place_named place) }
    {
        match place {
            Place::R => self.r,
            Place::A => self.a,
            Place::B => self.b,
            Place::S => self.s,
        }
    }

    // What a function makes of each.
    pub fn map<U, F: Fn(T) -> U>(self, f: F) -> Places<U>
        requires { F.pre f self.r × F.pre f self.a × F.pre f self.b × F.pre f self.s }
        ensures { F.post f self.r result.r × F.post f self.a result.a × F.post f self.b result.b × F.post f self.s result.s }
    {
        Places {
            r: f(self.r),
            a: f(self.a),
            b: f(self.b),
            s: f(self.s),
        }
    }
}

// The widths of the words that stand there.
pub type Widths = Places<u64>;

// Their bounds.
pub type Bounds = Places<Span>;

// The fields of rule n.
#[tactic(auto, unfolding(crate::specs::Reading::fields_at))]
pub fn fields_of(rules: &[u8], n: usize) -> Fields
    requires { fields * n + 5 < length rules.now }
    ensures { result ≡ fields_at rules.now n }
{
    let at = FIELDS * n;
    Fields {
        kind: rules[at],
        r: rules[at + 1],
        a: rules[at + 2],
        b: rules[at + 3],
        s: rules[at + 4],
        k: rules[at + 5],
    }
}

// What stands at i: 0 past the last word.
fn number_at(words: &[u64], i: usize) -> u64
    ensures { result ≡ at words.now i }
{
    words.get(i).copied().unwrap_or(0)
}

fn width_at(words: &[u64], word: u8) -> u64
    ensures { result ≡ width_at words.now word }
{
    number_at(words, STRIDE * usize::from(word))
}

fn span_at(words: &[u64], word: u8) -> Span
    ensures { result ≡ pair_at words.now word }
{
    let at = STRIDE * usize::from(word);
    Span {
        lo: number_at(words, at + 1),
        hi: number_at(words, at + 2),
    }
}

// The widths of the words that a rule names, by their numbers.
#[tactic(auto, unfolding(crate::specs::Reading::widths_of_words))]
pub fn widths_of(words: &[u64], at: Places<u8>) -> Widths
    ensures { result ≡ widths_of_words words.now at }
{
    at.map(|word| width_at(words, word))
}

// Their bounds in the table as it is lent.
#[tactic(auto, unfolding(crate::specs::Reading::bounds_of_words))]
pub fn bounds_of(words: &[u64], at: Places<u8>) -> Bounds
    ensures { result ≡ bounds_of_words words.now at }
{
    at.map(|word| span_at(words, word))
}
