// The trials: from the last rule to the first, each is left out of a search of its own, and dropped where the rest still has no settings.
ghost use Rattle.cause.specs.Trials.{Trying, Tries, Trimming, TrialsEnd};

use crate::{Kept, list};
use checker::Proper;

// The trial without rule n, where n rules below it are not decided yet and k are kept: it is kept where there are settings without it. None where it gives up.
fn attempt(work: &mut [u64], problem: &Proper<'_>, n: usize, k: usize, limit: u64) -> Option<Kept>
    requires { Trying problem.now.rules.now work.old n k }
    ensures { Tries problem.now.words.now problem.now.rules.now limit n k work.old result work.new }
{
    list::remove(work, n, k);
    match search::search_problem(work, problem, n + k, limit) {
        search::Answer::Found(count) => {
            list::insert(work, n, k);
            Some(Kept {
                count,
                rules: k + 1,
            })
        }
        search::Answer::Nothing(count) => Some(Kept { count, rules: k }),
        search::Answer::GaveUp => None,
    }
}

// All trials, after `first` guesses in the search of the whole problem. Where one gives up, its limit counts too, and the error is the sum.
pub fn trim(work: &mut [u64], problem: &Proper<'_>, limit: u64, first: u64) -> Result<Kept, u64>
    requires { Trimming problem.now.rules.now work.old limit first }
    ensures { TrialsEnd problem.now.words.now problem.now.rules.now limit first work.old result work.new }
{
    let mut sum = first;
    let mut kept = 0;
    for n in (0..problem.rule_count()).rev() {
        let Some(t) = attempt(work, problem, n, kept, limit) else {
            return Err(sum + limit);
        };
        sum += t.count;
        kept = t.rules;
    }
    Ok(Kept {
        count: sum,
        rules: kept,
    })
}
