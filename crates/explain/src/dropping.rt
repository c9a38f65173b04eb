// The reason for an answer: each fixed bit of the rule's places is dropped where the answer stays, and else listed.
ghost use Rattle.std.specs.Prelude.{◌≤◌, length};
ghost use Rattle.problem.specs.Named.{place_named};
ghost use Rattle.problem.specs.Places.{span_of};
ghost use Rattle.reason_theory.specs.Reason.{fixed_at};
ghost use Rattle.explain.specs.Asking.{shape_in, Asks};
ghost use Rattle.explain.specs.Dropping.{spot_at, BitAsked, PlaceAsked, Gone, Reasoned};
ghost use Rattle.explain.specs.Promise.{entries};

use crate::{Kept, Question, Said, places, saying};
use problem::Bounds;
use problem::kinds::Place;

// What a walk through the fixed bits goes by: a question, its answer x, and the bounds g as they were given.
#[derive(Clone, Copy)]
struct Walk {
    q: Question,
    x: Said,
    g: Bounds,
}

impl Walk {
    // Bit b of place p, if it is fixed, is dropped where the answer stays, else listed.
    fn drop_bit(self, list: &mut [u16], s: Kept, p: Place, b: u64) -> Kept
        requires { BitAsked self.q self.g s (place_named p) b list.old }
        ensures { Gone self.q self.x (spot_at (span_of self.g) (place_named p) b) s list.old result list.new }
    {
        let pair = self.g.at(p);
        if places::bit_of(pair.lo, b) != places::bit_of(pair.hi, b) {
            return s;
        }
        let Kept { t, count } = s;
        let u = places::open_at(t, p, b);
        if saying::stays(self.q, self.x, u) {
            return Kept { t: u, count };
        }
        list[count] = (64 * u64::from(p) + b) as u16;
        Kept {
            t,
            count: count + 1,
        }
    }

    // The fixed bits of place p gone through, from bit 0 upwards, where the rule uses it.
    fn drop_place(self, list: &mut [u16], s: Kept, p: Place) -> Kept
        requires { PlaceAsked self.q self.g s (place_named p) list.old }
        ensures { Gone self.q self.x (fixed_at (shape_in self.q) (span_of self.g) (place_named p)) s list.old result list.new }
    {
        if !self.q.kind.uses(p) {
            return s;
        }
        let mut r = s;
        for b in 0..self.q.w.at(p) {
            r = self.drop_bit(list, r, p, b);
        }
        r
    }
}

// All places gone through, from r to s. The number of entries listed comes back.
pub fn reason(list: &mut [u16], q: Question, x: Said, t: Bounds) -> u64
    requires { Asks q t × (entries ≤ length list.old) }
    ensures { Reasoned q x t list.old result list.new }
{
    let walk = Walk { q, x, g: t };
    let mut r = Kept { t, count: 0 };
    for p in Place::ALL {
        r = walk.drop_place(list, r, p);
    }
    r.count as u64
}
