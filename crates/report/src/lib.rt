// The call `advise`: a block file read, its problem solved, the cause looked for where there are no settings, and the report put into lent bytes as lines.
#![tactic(auto)]

mod line;
mod printing;
pub mod program;

ghost use Rattle.search_theory.specs.Search.{none};
ghost use Rattle.solve.specs.Promise.{Comes};
ghost use Rattle.report.specs.Promise.{ToReport, Told, Advises};

use cause::Caused;
use checker::{Proper, Refusal};
use printing::{put_refused, put_sat, put_unknown, put_unnamed, put_unsat};
use solve::Solved;

// Bytes that always do for a report.
pub const MOST: usize = 2304;

// The report on a problem whose search found no settings, with its count: the cause, or that a search for it gave up. No other answer comes back here.
fn tell_none(
    problem: &Proper<'_>,
    limit: u64,
    count: u64,
    out: &mut [u8],
    work: &mut [u64],
) -> usize
    requires { ToReport limit problem.now.words.now problem.now.rules.now out.old work.old
        × Comes limit problem.now.words.now problem.now.rules.now (none count) }
    ensures { Told limit problem.now.words.now problem.now.rules.now out.old work.old result out.new work.new }
{
    let mut list = [0; 252];
    match cause::trials(problem, limit, count, &mut list, work) {
        Caused::Cause(sum, n) => put_unsat(out, count, sum, &list[..n as usize]),
        Caused::GaveUp(sum) => put_unnamed(out, count, sum),
        // what has no settings has no first ones
        Caused::Exists(_) => unreachable!(),
    }
}

// The report on a problem: solved, and the cause looked for where there are no settings. A problem without refusals is not refused here.
fn tell(problem: &Proper<'_>, limit: u32, out: &mut [u8], work: &mut [u64]) -> usize
    requires { ToReport limit problem.now.words.now problem.now.rules.now out.old work.old }
    ensures { Told limit problem.now.words.now problem.now.rules.now out.old work.old result out.new work.new }
{
    let mut model = [0; 32];
    match solve::solve(problem.words, problem.rules, limit, &mut model, work).unwrap() {
        Solved::Found(count) => put_sat(out, count, problem.words, &model),
        Solved::Nothing(count) => tell_none(problem, u64::from(limit), count, out, work),
        Solved::GaveUp(count) => put_unknown(out, count),
    }
}

// Advises on a block file: the lines of its report stand in front of the lent bytes, the rest of them stays, and their number comes back. Bytes of fewer than
// 2,304 or work memory of fewer than 5,120 numbers is refusal 1, and nothing is altered; else work memory is all 0 afterwards, also where the lines say
// `refused`.
pub fn advise(file: &[u8], out: &mut [u8], work: &mut [u64]) -> Result<usize, Refusal>
    ensures { Advises file.now out.old work.old result out.new work.new }
{
    if out.len() < MOST {
        return Err(Refusal::Size);
    }
    if work.len() < cause::WORK {
        return Err(Refusal::Size);
    }
    let mut words = [0; 96];
    let mut rules = [0; 1512];
    match reader::read(file, &mut words, &mut rules) {
        Err(refusal) => {
            tighten::buffer::clear(work);
            Ok(put_refused(out, refusal.number(), refusal.place()))
        }
        Ok(x) => {
            let problem = Proper {
                words: &words[..problem::STRIDE * x.words],
                rules: &rules[..problem::FIELDS * x.rules],
            };
            Ok(tell(&problem, x.limit, out, work))
        }
    }
}
