// The published search over lent memory: the present table at 0..64, the numbers of the rules at 64..316, a copy of the last tight table at 316..380,
// then the trail that takes its changes back. Nothing is kept on the stack but a level's own numbers.
#![tactic(auto)]

mod guess;

ghost use Rattle.std.specs.Prelude.{◌+◌};
ghost use Rattle.search.specs.Searching.{Begun, Searched, Prepared};
ghost use Rattle.search.specs.Starting.{ToSearch, Sought};

use checker::Proper;
use std::ops::ControlFlow;

// What a search has come to: the settings are the low bounds of the table; there are none; or one more guess was needed than allowed.
#[derive(Clone, Copy)]
pub enum Answer {
    Found(u64),
    Nothing(u64),
    GaveUp,
}

// What stays the same over a search: a problem, how many of its rules are listed in memory, and how many guesses may be made.
#[derive(Clone, Copy)]
pub struct Task<'a> {
    pub problem: Proper<'a>,
    pub count: usize,
    pub limit: u64,
}

// A guess: the word that it falls on, and how many entries the trail has then.
#[derive(Clone, Copy)]
struct Level {
    word: usize,
    entries: usize,
}

// The table is tightened: the answer, where that is one. Else, where a bit is open and the limit allows it, the copy becomes the tight table and the guess is
// fixed 0 in the present one.
fn prepare(work: &mut [u64], task: &Task<'_>, base: usize, used: u64) -> ControlFlow<Answer, Level>
    requires { Begun task.now.problem.words.now task.now.problem.rules.now work.old task.now.count base used task.now.limit }
    ensures { Prepared task.now.problem.words.now task.now.problem.rules.now task.now.count task.now.limit work.old base used result work.new }
{
    let n = task.problem.word_count();
    if !tighten::settle(work, &task.problem, task.count) {
        return ControlFlow::Break(Answer::Nothing(used));
    }
    let Some(word) = guess::open_word(work, n) else {
        return ControlFlow::Break(Answer::Found(used));
    };
    if used == task.limit {
        return ControlFlow::Break(Answer::GaveUp);
    }
    let entries = trail::commit(work, n, base);
    guess::fix_first(work, word);
    ControlFlow::Continue(Level { word, entries })
}

// The search of the table in memory, with `used` guesses made. It calls itself for each value of its guess, and the open bits of the table fall at every call.
// Whatever comes of it, the list, the copy and the first `base` entries of the trail are as they were.
pub fn search(work: &mut [u64], task: &Task<'_>, base: usize, used: u64) -> Answer
    requires { Begun task.now.problem.words.now task.now.problem.rules.now work.old task.now.count base used task.now.limit }
    ensures { Searched task.now.problem.words.now task.now.problem.rules.now task.now.count task.now.limit work.old base used result work.new }
{
    let level = match prepare(work, task, base, used) {
        ControlFlow::Break(answer) => return answer,
        ControlFlow::Continue(level) => level,
    };
    let mut answer = search(work, task, level.entries, used + 1);
    if let Answer::Nothing(guesses) = answer {
        guess::second_value(work, task.problem.word_count(), level.word);
        answer = search(work, task, level.entries, guesses);
    }
    trail::rollback(work, base, level.entries);
    answer
}

// The search of a problem's own table for the rules listed in memory; the list stays as it is.
pub fn search_problem(work: &mut [u64], problem: &Proper<'_>, count: usize, limit: u64) -> Answer
    requires { ToSearch problem.now.rules.now work.old count }
    ensures { Sought problem.now.words.now problem.now.rules.now count limit work.old result work.new }
{
    tighten::buffer::load(work, problem.words);
    trail::copy_table(work, problem.word_count(), 0, trail::COPY);
    let task = Task {
        problem: *problem,
        count,
        limit,
    };
    search(work, &task, 0, 0)
}
