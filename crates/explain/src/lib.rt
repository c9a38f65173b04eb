// One bit at one place of a rule explained, over the table as it was given: what the rule says of the bit, and the fixed bits that are the reason.
// All work is on the rule's own four places, held by value; the table is read once and never changed.
#![tactic(auto)]

mod asking;
mod dropping;
mod places;
mod saying;

ghost use Rattle.std.specs.Prelude.{◌≤◌, length};
ghost use Rattle.problem.specs.Places.{span_of};
ghost use Rattle.explain.specs.Asking.{shape_in, place_in, Asks};
ghost use Rattle.explain.specs.Promise.{entries, Explanation, Judged, Explaining};

use checker::{Proper, Refusal};
use problem::kinds::{Kind, Place};
use problem::{Bounds, Widths};

// A question: the kind and number of a rule, the widths of its places, and the place and the bit that are asked for.
#[derive(Clone, Copy)]
struct Question {
    kind: Kind,
    k: u64,
    w: Widths,
    place: Place,
    bit: u64,
}

// What a rule says of a bit: it has no fit, all fits have this value, or neither.
#[derive(Clone, Copy, Debug, PartialEq, Eq)]
enum Said {
    Conflict,
    Forced(u64),
    Free,
}

// How far the dropping has come: the bounds with the dropped bits open, and how many entries are kept.
#[derive(Clone, Copy)]
struct Kept {
    t: Bounds,
    count: usize,
}

// The answer: CONFLICT with the number of entries of its reason, FORCED with the value and that number, or FREE.
#[derive(Clone, Copy, Debug, PartialEq, Eq)]
pub enum Explained {
    Conflict(u64),
    Forced(u64, u64),
    Free,
}

// The most entries that a reason may have: room for so many must be lent.
const ENTRIES: usize = 193;

// The answer for an open bit, its reason listed. FREE has none, and leaves the list as it was.
fn answered(list: &mut [u16], q: Question, t: Bounds) -> Explained
    requires { Asks q t × (entries ≤ length list.old) }
    ensures { Explanation (shape_in q) (span_of t) (place_in q) q.bit list.old result list.new }
{
    let o = hull::narrow(q.kind, q.k, q.w, t);
    let x = saying::said_by(q, o);
    if let Said::Conflict = x {
        return Explained::Conflict(dropping::reason(list, q, x, t));
    }
    let Said::Forced(value) = x else {
        return Explained::Free;
    };
    Explained::Forced(value, dropping::reason(list, q, x, t))
}

// The answer over a proper problem: refusal 10, or what rule n says of the bit.
fn explain_proper(
    problem: &Proper<'_>,
    rule: u64,
    place: u64,
    bit: u64,
    list: &mut [u16],
) -> Result<Explained, Refusal>
    requires { entries ≤ length list.old }
    ensures { Judged problem.now.words.now problem.now.rules.now rule place bit list.old result list.new }
{
    if problem.rule_count() as u64 <= rule {
        return Err(Refusal::Ask);
    }
    let Ok(place) = Place::try_from(place) else {
        return Err(Refusal::Ask);
    };
    let x = problem::fields_of(problem.rules, rule as usize);
    let Ok(kind) = Kind::try_from(x.kind) else {
        unreachable!()
    };
    let at = x.words();
    let t = problem::bounds_of(problem.words, at);
    let q = Question {
        kind,
        k: u64::from(x.k),
        w: problem::widths_of(problem.words, at),
        place,
        bit,
    };
    if !asking::is_open(q, t) {
        return Err(Refusal::Ask);
    }
    Ok(answered(list, q, t))
}

// Explains one open bit at one place (0 r, 1 a, 2 b, 3 s) of a rule, over the table as given. CONFLICT and FORCED: the reason stands in the list, each
// fixed bit as 64 times place plus bit, and its number of entries comes back; the rest of the list stays. FREE and every refusal leave the list as it was.
// Room for 193 entries is lent; no other memory is needed.
pub fn explain(
    words: &[u64],
    rules: &[u8],
    rule: u64,
    place: u64,
    bit: u64,
    list: &mut [u16],
) -> Result<Explained, Refusal>
    ensures { Explaining words.now rules.now rule place bit list.old result list.new }
{
    if list.len() < ENTRIES {
        return Err(Refusal::Size);
    }
    let problem = Proper::new(words, rules)?;
    explain_proper(&problem, rule, place, bit, list)
}
