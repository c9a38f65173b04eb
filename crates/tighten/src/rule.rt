// One rule applied to the table in work memory.
ghost use Rattle.std.specs.Prelude.{◌≡◌, ◌+◌, ◌*◌, ◌<◌, ◌≤◌, length};
ghost use Rattle.problem.specs.Lent.{rule_count};
ghost use Rattle.tighten.specs.Meeting.{met_by, met_all, untouched, work_pair, work_bounds};
ghost use Rattle.tighten.specs.Ready.{Tabled, Applied};

use crate::buffer::HIGH;
use checker::Proper;
use problem::kinds::{Kind, Place};
use problem::{Bounds, Fields, Span};

// The bounds of word i.
fn span_at(work: &[u64], i: usize) -> Span
    requires { (i < 32) × (64 ≤ length work.now) }
    ensures { result ≡ work_pair work.now i }
{
    Span {
        lo: work[i],
        hi: work[i + HIGH],
    }
}

// The bounds of the words that stand at a rule's places.
fn bounds_at(work: &[u64], x: Fields) -> Bounds
    requires { (x.r < 32) × (x.a < 32) × (x.b < 32) × (x.s < 32) × (64 ≤ length work.now) }
    ensures { result ≡ work_bounds work.now x }
{
    x.words().map(|word| span_at(work, usize::from(word)))
}

// The bounds of word i met with others: whether one of them changed. None, and nothing is stored, where the low bound then leaves the high one.
fn meet(work: &mut [u64], i: usize, with: Span) -> Option<bool>
    requires { (i < 32) × (64 ≤ length work.old) }
    ensures { record { met = result; memory = work.new } ≡ met_by (untouched work.old) i with.lo with.hi }
{
    let old = span_at(work, i);
    let met = old.meet(with)?;
    work[i] = met.lo;
    work[i + HIGH] = met.hi;
    Some(met != old)
}

// The bounds at all places of a rule met, each with its own, until there is no fit.
fn meet_all(work: &mut [u64], x: Fields, t: Bounds) -> Option<bool>
    requires { (x.r < 32) × (x.a < 32) × (x.b < 32) × (x.s < 32) × (64 ≤ length work.old) }
    ensures { record { met = result; memory = work.new } ≡ met_all (untouched work.old) x t }
{
    let r = meet(work, x.word(Place::R), t.r)?;
    let a = meet(work, x.word(Place::A), t.a)?;
    let b = meet(work, x.word(Place::B), t.b)?;
    let s = meet(work, x.word(Place::S), t.s)?;
    Some(r | a | b | s)
}

// Rule j applied: the bounds of its words are met with what its narrowing leaves. Whether one of them changed; none where there is no fit.
pub fn apply(work: &mut [u64], problem: &Proper<'_>, j: usize) -> Option<bool>
    requires { Tabled problem.now.words.now work.old × (j < rule_count problem.now.rules.now) }
    ensures { Applied problem.now.words.now problem.now.rules.now j work.old work.new result }
{
    let x = problem::fields_of(problem.rules, j);
    let w = problem::widths_of(problem.words, x.words());
    let t = bounds_at(work, x);
    let Ok(kind) = Kind::try_from(x.kind) else {
        unreachable!()
    };
    let left = hull::narrow(kind, u64::from(x.k), w, t)?;
    meet_all(work, x, left)
}
