// A bit of a bound, and a bit treated as open at one place of a rule.
ghost use Rattle.std.specs.Prelude.{◌≡◌, ◌<◌};
ghost use Rattle.words.specs.Bits.{bit};
ghost use Rattle.problem.specs.Named.{place_named};
ghost use Rattle.problem.specs.Places.{span_of};
ghost use Rattle.reason_theory.specs.Reason.{cleared, filled, opened};

use problem::kinds::Place;
use problem::{Bounds, Span};

// Bit b of n.
#[tactic(auto, unfolding(words::specs::Bits::bit))]
pub fn bit_of(n: u64, b: u64) -> u64
    requires { b < 64 }
    ensures { result ≡ bit n b }
{
    (n >> b) % 2
}

// Two bounds with bit b treated as open.
#[tactic(auto, using(crate::proofs::Opening::cleared_and, crate::proofs::Opening::filled_or))]
fn opened(x: Span, b: u64) -> Span
    requires { b < 64 }
    ensures { result ≡ record { lo = cleared x.lo b; hi = filled x.hi b } }
{
    let one = 1 << b;
    Span {
        lo: x.lo & !one,
        hi: x.hi | one,
    }
}

// The bounds with bit b treated as open at place p, and at no other.
pub fn open_at(t: Bounds, p: Place, b: u64) -> Bounds
    requires { b < 64 }
    ensures { span_of result ≡ opened (span_of t) (place_named p) b }
{
    let open = opened(t.at(p), b);
    match p {
        Place::R => Bounds { r: open, ..t },
        Place::A => Bounds { a: open, ..t },
        Place::B => Bounds { b: open, ..t },
        Place::S => Bounds { s: open, ..t },
    }
}
