// Refusal 8: whether widths and k are as a rule's class asks.
ghost use Rattle.std.specs.Prelude.{◌≡◌, ◌+◌, leb, eqb};
ghost use Rattle.problem.specs.Named.{class_named};
ghost use Rattle.problem.specs.Places.{width_of};
ghost use Rattle.checker.specs.Tests.{fits_as};

use problem::Widths;
use problem::kinds::Class;

// Whether k to k + r - 1 are bits of a word of a bits.
fn is_part(r: u64, a: u64, k: u64) -> bool
    ensures { result ≡ leb (k + r) a }
{
    a.checked_sub(r).is_some_and(|rest| k <= rest)
}

// Whether r is a and b together.
fn is_sum(r: u64, a: u64, b: u64) -> bool
    ensures { result ≡ eqb r (a + b) }
{
    a.checked_add(b) == Some(r)
}

// Whether widths and k are as a class asks.
pub fn fits(class: Class, w: Widths, k: u64) -> bool
    ensures { result ≡ fits_as (class_named class) (width_of w) k }
{
    match class {
        Class::EqualRA => w.r == w.a,
        Class::EqualRAB => (w.r == w.a) & (w.r == w.b),
        Class::Chosen => (w.r == w.a) & ((w.r == w.b) & (w.s == 1)),
        Class::Part => is_part(w.r, w.a, k),
        Class::Joined => is_sum(w.r, w.a, w.b),
        Class::EqualAB => w.a == w.b,
    }
}
