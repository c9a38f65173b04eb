// The call `cause`: why a problem has no settings, as the rules that remain when, from the last to the first, each that can be spared is dropped.
#![tactic(auto)]

mod dropping;
mod list;

ghost use Rattle.std.specs.Prelude.{◌<◌};
ghost use Rattle.cause.specs.Promise.{Causing, NoneFirst, CauseGiven};

use checker::{Proper, Refusal};

// The answer: settings exist, with the first search's count; a search gave up, with the sum; or the cause, with the sum and how many rules it names.
#[derive(Clone, Copy, Debug, PartialEq, Eq)]
pub enum Caused {
    Exists(u64),
    GaveUp(u64),
    Cause(u64, u64),
}

// What a trial, or all of them, has come to: the count of guesses, and how many rules are kept.
#[derive(Clone, Copy)]
struct Kept {
    count: u64,
    rules: usize,
}

// The numbers of work memory that a cause needs.
pub const WORK: usize = 5120;

// The trials of a problem that has no settings, `first` being the count of its own search. Each is a search of its own with the full limit.
// Work memory is all 0 afterwards, and the list is altered by a cause alone.
pub fn trials(
    problem: &Proper<'_>,
    limit: u64,
    first: u64,
    list: &mut [u16],
    work: &mut [u64],
) -> Caused
    requires { NoneFirst limit problem.now.words.now problem.now.rules.now list.old work.old first }
    ensures { Causing limit problem.now.words.now problem.now.rules.now list.old work.old (Ok result) list.new
        work.new }
{
    tighten::buffer::list_all(work, problem.rule_count());
    let kept = match dropping::trim(work, problem, limit, first) {
        Ok(kept) => kept,
        Err(sum) => {
            tighten::buffer::clear(work);
            return Caused::GaveUp(sum);
        }
    };
    list::give(list, work, kept.rules);
    tighten::buffer::clear(work);
    Caused::Cause(kept.count, kept.rules as u64)
}

// The first search, and the trials where it finds that there are no settings.
fn cause_proper(problem: &Proper<'_>, limit: u64, list: &mut [u16], work: &mut [u64]) -> Caused
    requires { CauseGiven limit problem.now.words.now problem.now.rules.now list.old work.old }
    ensures { Causing limit problem.now.words.now problem.now.rules.now list.old work.old (Ok result) list.new
        work.new }
{
    let rules = problem.rule_count();
    tighten::buffer::list_all(work, rules);
    match search::search_problem(work, problem, rules, limit) {
        search::Answer::Found(count) => {
            tighten::buffer::clear(work);
            Caused::Exists(count)
        }
        search::Answer::Nothing(count) => trials(problem, limit, count, list, work),
        search::Answer::GaveUp => {
            tighten::buffer::clear(work);
            Caused::GaveUp(limit)
        }
    }
}

// Names the cause where a problem has no settings: its rule numbers, ascending, are the first entries of the list, and the rest of it stays. EXISTS where there
// are settings, GAVE UP where one of the searches does: the list stays. A cause names at least one rule, so 11 is never answered. Work memory of at
// least 5,120 numbers is lent, and is all 0 after these answers; a refusal alters nothing.
pub fn cause(
    words: &[u64],
    rules: &[u8],
    limit: u32,
    list: &mut [u16],
    work: &mut [u64],
) -> Result<Caused, Refusal>
    ensures { Causing limit words.now rules.now list.old work.old result list.new
        work.new }
{
    if work.len() < WORK {
        return Err(Refusal::Size);
    }
    if list.len() < rules.len() / problem::FIELDS {
        return Err(Refusal::Size);
    }
    let problem = Proper::new(words, rules)?;
    checker::limit_refusal(limit)?;
    Ok(cause_proper(&problem, u64::from(limit), list, work))
}
