// The automata of the kinds that go by columns: a constant table.
ghost use Rattle.std.specs.Prelude.{◌≡◌};
ghost use Rattle.problem.specs.Named.{kind_named};
ghost use Rattle.hull.specs.Automata.{auto_of};

use crate::{Auto, States};
use problem::kinds::Kind;

// The states in which a kind may end: state 1, both, or none for the kinds that have no automaton.
const ONE: States = States {
    zero: false,
    one: true,
};

const BOTH: States = States {
    zero: true,
    one: true,
};

const NO_STATE: States = States {
    zero: false,
    one: false,
};

fn auto(t00: u64, t01: u64, t10: u64, t11: u64, ends: States) -> Auto
    ensures { result ≡ record { t00 = t00; t01 = t01; t10 = t10; t11 = t11; ends = ends } }
{
    Auto {
        t00,
        t01,
        t10,
        t11,
        ends,
    }
}

// The masks of each kind, of the columns from state 0 to 0, 0 to 1, 1 to 0 and 1 to 1, and the states in which it ends; sweep.rt explains masks.
// Kinds that move bits have none.
#[tactic(auto, unfolding(crate::specs::Automata::auto_of))]
pub fn auto_of(kind: Kind) -> Auto
    ensures { result ≡ auto_of (kind_named kind) }
{
    match kind {
        Kind::And => auto(135, 0, 0, 135, BOTH),
        Kind::Or => auto(225, 0, 0, 225, BOTH),
        Kind::Xor => auto(105, 0, 0, 105, BOTH),
        Kind::Add => auto(97, 8, 16, 134, BOTH),
        Kind::Ite => auto(165, 0, 0, 195, BOTH),
        Kind::Ule => auto(221, 34, 68, 187, ONE),
        Kind::Ult => auto(221, 34, 68, 187, ONE),
        Kind::Ne => auto(153, 102, 0, 255, ONE),
        _ => auto(0, 0, 0, 0, NO_STATE),
    }
}
