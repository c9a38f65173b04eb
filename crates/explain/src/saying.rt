// What a rule says of the bit that is asked for, and whether an answer stays.
ghost use Rattle.std.specs.Prelude.{◌≡◌, ◌<◌};
ghost use Rattle.problem.specs.Places.{span_of};
ghost use Rattle.reason_theory.specs.Says.{Says};
ghost use Rattle.lists.specs.Tests.{Decides};
ghost use Rattle.explain.specs.Asking.{shape_in, place_in, answer, said_by, Asks};

use crate::{Question, Said, places};
use problem::Bounds;

// What a narrowing says of the bit: CONFLICT without a fit, FORCED where the hull of the fits has one value for the bit, else FREE.
pub fn said_by(q: Question, o: Option<Bounds>) -> Said
    requires { q.bit < 64 }
    ensures { result ≡ said_by q o }
{
    let Some(t) = o else {
        return Said::Conflict;
    };
    let x = t.at(q.place);
    let l = places::bit_of(x.lo, q.bit);
    let h = places::bit_of(x.hi, q.bit);
    if l == h {
        return Said::Forced(l);
    }
    Said::Free
}

// Whether the answer over the bounds t is x.
pub fn stays(q: Question, x: Said, t: Bounds) -> bool
    requires { Asks q t }
    ensures { Decides (Says (shape_in q) (span_of t) (place_in q) q.bit (answer x)) result }
{
    said_by(q, hull::narrow(q.kind, q.k, q.w, t)) == x
}
