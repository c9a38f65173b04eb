// Fixed operands: AND, OR, XOR, ADD and ITE compute their value at once, without columns.
ghost use Rattle.std.specs.Prelude.{◌≡◌, ◌&&◌};
ghost use Rattle.rules.specs.Kinds.{R};
ghost use Rattle.rules.specs.Rows.{uses};
ghost use Rattle.problem.specs.Named.{kind_named};
ghost use Rattle.hull.specs.ByColumns.{fixed_in, value_of, settled};

use crate::width::WordWidth;
use problem::kinds::{Kind, Place};
use problem::{Bounds, Span};

// What AND, OR, XOR, ADD and ITE compute of the low bounds, at width n.
#[tactic(auto, unfolding(crate::specs::ByColumns::value_of))]
fn value(kind: Kind, n: WordWidth, t: Bounds) -> u64
    ensures { result ≡ value_of (kind_named kind) n.bits t }
{
    match kind {
        Kind::And => t.a.lo & t.b.lo,
        Kind::Or => t.a.lo | t.b.lo,
        Kind::Xor => t.a.lo ^ t.b.lo,
        Kind::Add => t.a.lo.wrapping_add(t.b.lo) & n.mask(),
        _ => if t.s.lo == 0 { t.b.lo } else { t.a.lo },
    }
}

// Whether the kind computes, and a, b and s have one value each.
pub fn at_once(kind: Kind, f: Bounds) -> bool
    ensures { result ≡ (uses (kind_named kind) R && fixed_in f) }
{
    kind.uses(Place::R) & (f.a.is_fixed() & f.b.is_fixed() & f.s.is_fixed())
}

// r has the value that is computed in the frame f, if that lies between its bounds.
pub fn settle(kind: Kind, n: WordWidth, f: Bounds, t: Bounds) -> Option<Bounds>
    ensures { result ≡ settled (value_of (kind_named kind) n.bits f) t }
{
    let r = t.r.meet(Span::fixed(value(kind, n, f)))?;
    Some(Bounds { r, ..t })
}
