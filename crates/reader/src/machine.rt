// The machine over the blocks of a file, and refusals 1, 2 and 3.
ghost use Rattle.std.specs.Prelude.{◌≡◌, ◌+◌, ◌*◌, ◌≤◌, ◌-◌, length};
ghost use Rattle.blocks.specs.Block.{Sound};
ghost use Rattle.reader.specs.Scans.{BlockStep, Stands, Turned, Scanned};

use crate::block::body_of;
use crate::{Body, State};
use blocks::Problem;
use checker::Refusal;
use problem::{RULES, WORDS};

// The machine's step: a words block may come where no rules were yet, and after full blocks of its kind only.
fn step_on(b: &[u8; 512], i: usize, words: usize, rules: usize) -> Option<State>
    requires { (words ≤ 32) × (rules ≤ 252) × Sound b.now }
    ensures { BlockStep b.now i words rules result }
{
    match body_of(b, i)? {
        Body::Words(c) => {
            if rules != 0 {
                return None;
            }
            if words % 21 != 0 {
                return None;
            }
            if c > WORDS - words {
                return None;
            }
            Some(State::Going(words + c, 0))
        }
        Body::Rules(c) => {
            if rules % 63 != 0 {
                return None;
            }
            if c > RULES - rules {
                return None;
            }
            Some(State::Going(words, rules + c))
        }
        Body::End(limit) => Some(State::Ended(Problem {
            words,
            rules,
            limit,
        })),
    }
}

// Block i, where it stands: its sum, then its layout after the blocks before it.
fn turn_at(file: &[u8], i: usize, state: State) -> Result<State, Refusal>
    requires { (512 * i + 512 ≤ length file.now) × Stands file.now i state }
    ensures { Turned file.now i result }
{
    let at = 512 * i;
    let b = file[at..at + 512].as_array().unwrap();
    if blocks::sum_of(b) != 65535 {
        return Err(Refusal::Check(i));
    }
    let State::Going(words, rules) = state else {
        return Err(Refusal::Layout(i));
    };
    step_on(b, i, words, rules).ok_or(Refusal::Layout(i))
}

// Refusals 1, 2 and 3 of a file, or what it holds.
pub fn scan_file(file: &[u8]) -> Result<Problem, Refusal>
    ensures { Scanned file.now result }
{
    let n = file.len();
    if n % 512 != 0 {
        return Err(Refusal::Size);
    }
    let k = n / 512;
    if k == 0 {
        return Err(Refusal::Size);
    }
    if k > 7 {
        return Err(Refusal::Size);
    }
    let mut state = State::Going(0, 0);
    for i in 0..k {
        state = turn_at(file, i, state)?;
    }
    let State::Ended(x) = state else {
        return Err(Refusal::Layout(k - 1));
    };
    Ok(x)
}
