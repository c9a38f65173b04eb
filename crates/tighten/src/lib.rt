// Tightening: the rules are applied in turn until none changes the table.
// The table is in lent work memory: the low bounds of the words at 0..32, their high bounds at 32..64, then the numbers of the rules.
#![tactic(auto)]

pub mod buffer;
mod rule;

ghost use Rattle.std.specs.Prelude.{◌≤◌, length};
ghost use Rattle.tighten.specs.Promise.{tighten_work, Tightening};
ghost use Rattle.tighten.specs.Ready.{Tabled, Listed, Swept, Settled, Left};

use checker::{Proper, Refusal};

// The rules that are listed, each applied once, until one has no fit: whether a bound changed; none where there is no fit.
fn sweep(work: &mut [u64], problem: &Proper<'_>, count: usize) -> Option<bool>
    requires { Tabled problem.now.words.now work.old × Listed problem.now.rules.now work.old count }
    ensures { Swept problem.now.words.now problem.now.rules.now count work.old work.new result }
{
    let mut changed = false;
    for j in 0..count {
        let n = work[buffer::LIST + j] as usize;
        changed |= rule::apply(work, problem, n)?;
    }
    Some(changed)
}

// The rules that are listed, applied until none changes a bound: whether a tight table is left, which then stands in memory.
pub fn settle(work: &mut [u64], problem: &Proper<'_>, count: usize) -> bool
    requires { Tabled problem.now.words.now work.old × Listed problem.now.rules.now work.old count }
    ensures { Settled problem.now.words.now problem.now.rules.now count work.old work.new result }
{
    loop {
        match sweep(work, problem, count) {
            None => return false,
            Some(false) => return true,
            Some(true) => {}
        }
    }
}

// What comes of a proper problem: the bounds of the words are those of the widest tight table; or there is none.
#[derive(Clone, Copy, Debug, PartialEq, Eq)]
pub enum Answer {
    Tight,
    Conflict,
}

// The numbers of work memory that tightening needs.
const WORK: usize = 320;

// The table of a problem put into memory and tightened for all its rules: whether a tight one is left, which then stands there.
fn tightened(work: &mut [u64], problem: &Proper<'_>) -> bool
    requires { tighten_work ≤ length work.old }
    ensures { Left problem.now.words.now problem.now.rules.now work.old work.new result }
{
    let count = problem.rule_count();
    buffer::load(work, problem.words);
    buffer::list_all(work, count);
    settle(work, problem, count)
}

// Tightens a problem's table. TIGHT: the bounds in words are those of the widest tight table, the widths stay. CONFLICT: there is none, and words stay as they
// were. Work memory of at least 320 numbers is lent, and is all 0 after both; a refusal alters nothing.
pub fn tighten(words: &mut [u64], rules: &[u8], work: &mut [u64]) -> Result<Answer, Refusal>
    ensures { Tightening words.old rules.now work.old result words.new work.new }
{
    if work.len() < WORK {
        return Err(Refusal::Size);
    }
    let problem = Proper::new(words, rules)?;
    if !tightened(work, &problem) {
        buffer::clear(work);
        return Ok(Answer::Conflict);
    }
    buffer::unload(words, work);
    buffer::clear(work);
    Ok(Answer::Tight)
}
