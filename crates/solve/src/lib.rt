// The call `solve`: the published search of a problem, its settings put into the model.
#![tactic(auto)]

ghost use Rattle.std.specs.Prelude.{◌≤◌, length};
ghost use Rattle.solve.specs.Promise.{Stored, Solving, SolveGiven};

use checker::{Proper, Refusal};

// The answer: the first settings are in the model; there are none; one more guess was needed than allowed; each with its count.
#[derive(Clone, Copy, Debug, PartialEq, Eq)]
pub enum Solved {
    Found(u64),
    Nothing(u64),
    GaveUp(u64),
}

// The numbers of work memory that solving needs.
pub const WORK: usize = 4608;

// The settings, which are the first n numbers of memory, put into the model. By the library's `copy_from_slice` the archive for C would ask for `memmove`.
fn store(model: &mut [u64], work: &[u64], n: usize)
    requires { (n ≤ length model.old) × (n ≤ length work.now) }
    ensures { Stored n work.now model.old model.new }
{
    for i in 0..n {
        model[i] = work[i];
    }
}

// A proper problem solved: all its rules listed, the search, the settings stored where there are some, and the memory cleared.
fn solve_proper(problem: &Proper<'_>, limit: u64, model: &mut [u64], work: &mut [u64]) -> Solved
    requires { SolveGiven limit problem.now.words.now problem.now.rules.now model.old work.old }
    ensures { Solving limit problem.now.words.now problem.now.rules.now model.old work.old (Ok result) model.new
        work.new }
{
    let rules = problem.rule_count();
    tighten::buffer::list_all(work, rules);
    match search::search_problem(work, problem, rules, limit) {
        search::Answer::Found(count) => {
            store(model, work, problem.word_count());
            tighten::buffer::clear(work);
            Solved::Found(count)
        }
        search::Answer::Nothing(count) => {
            tighten::buffer::clear(work);
            Solved::Nothing(count)
        }
        search::Answer::GaveUp => {
            tighten::buffer::clear(work);
            Solved::GaveUp(limit)
        }
    }
}

// Solves a problem. FOUND: the first numbers of the model, one a word, are the first settings in word order, and the rest of it stays. NONE and GAVE UP: the
// model stays. Work memory of at least 4,608 numbers is lent, and is all 0 after these answers; a refusal alters nothing. A limit of 0 lets tightening
// alone decide.
pub fn solve(
    words: &[u64],
    rules: &[u8],
    limit: u32,
    model: &mut [u64],
    work: &mut [u64],
) -> Result<Solved, Refusal>
    ensures { Solving limit words.now rules.now model.old work.old result model.new
        work.new }
{
    if work.len() < WORK {
        return Err(Refusal::Size);
    }
    if model.len() < words.len() / problem::STRIDE {
        return Err(Refusal::Size);
    }
    let problem = Proper::new(words, rules)?;
    checker::limit_refusal(limit)?;
    Ok(solve_proper(&problem, u64::from(limit), model, work))
}
