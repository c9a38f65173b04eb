// Reading a block file: its length, block by block its sum and its layout, then the problem in it. Nothing lent is written unless the answer is OK.
#![tactic(auto)]

mod block;
mod machine;
mod store;

ghost use Rattle.blocks.specs.Edition.{edition1};
ghost use Rattle.blocks.specs.File.{ProperFile};
ghost use Rattle.blocks.specs.Promise.{Room, Reads};

use blocks::Problem;
use checker::Refusal;
use machine::scan_file;
use store::{judge, store_rules, store_words};

// What a block with a given number is: words or rules, so many; or the end, with the limit.
#[derive(Clone, Copy, Debug, PartialEq, Eq)]
pub enum Body {
    Words(usize),
    Rules(usize),
    End(u32),
}

// How far the machine is: so many words and rules, or these with the limit after the end block.
#[derive(Clone, Copy, Debug, PartialEq, Eq)]
pub enum State {
    Going(usize, usize),
    Ended(Problem),
}

// The problem in a proper file: its refusal, or its words and rules stored.
fn keep(file: &[u8], words: &mut [u64], rules: &mut [u8], x: Problem) -> Result<Problem, Refusal>
    requires { Room words.old rules.old × ProperFile edition1 file.now x.words x.rules x.limit }
    ensures { Reads edition1 file.now words.old rules.old words.new rules.new result }
{
    judge(file, x)?;
    store_words(file, words, x.words);
    store_rules(file, rules, x.words, x.rules);
    Ok(x)
}

// Reads a file into lent words, three numbers each, and lent rules, six bytes each. OK with the counts of words and rules and the limit: only the records
// read are stored, in front, and the rest stays as it was. Else the first refusal in order, and nothing is altered.
pub fn read(file: &[u8], words: &mut [u64], rules: &mut [u8]) -> Result<Problem, Refusal>
    ensures { Reads edition1 file.now words.old rules.old words.new rules.new result }
{
    if words.len() / problem::STRIDE < problem::WORDS {
        return Err(Refusal::Size);
    }
    if rules.len() / problem::FIELDS < problem::RULES {
        return Err(Refusal::Size);
    }
    let x = scan_file(file)?;
    keep(file, words, rules, x)
}
