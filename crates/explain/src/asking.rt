// Whether a question asks for an open bit.
ghost use Rattle.std.specs.Prelude.{◌≡◌};
ghost use Rattle.rules.specs.Fits.{Legal};
ghost use Rattle.problem.specs.Named.{place_number};
ghost use Rattle.problem.specs.Places.{span_of};
ghost use Rattle.lists.specs.Tests.{Decides};
ghost use Rattle.explain.specs.Asking.{shape_in, OpenBit};

use crate::{Question, places};
use problem::Bounds;

// Whether the rule uses the place, and the bit is below the width there and open.
pub fn is_open(q: Question, t: Bounds) -> bool
    requires { Legal (shape_in q) (span_of t) }
    ensures { Decides (OpenBit (shape_in q) (span_of t) (place_number q.place) q.bit) result }
{
    if !q.kind.uses(q.place) {
        return false;
    }
    if q.w.at(q.place) <= q.bit {
        return false;
    }
    let x = t.at(q.place);
    if places::bit_of(x.lo, q.bit) == 1 {
        return false;
    }
    places::bit_of(x.hi, q.bit) == 1
}
