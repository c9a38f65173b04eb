// The words and rules of a proper file: where they stand, how they are stored, and refusals 4 to 9.
ghost use Rattle.std.specs.Prelude.{◌≡◌, ◌+◌, ◌*◌, ◌<◌, ◌≤◌, length};
ghost use Rattle.problem.specs.Lent.{stride, fields};
ghost use Rattle.checker.specs.Refusal.{refusal_with};
ghost use Rattle.lists.specs.Lists.{put};
ghost use Rattle.blocks.specs.Edition.{edition1};
ghost use Rattle.blocks.specs.Written.{word_blocks, rule_blocks};
ghost use Rattle.blocks.specs.Decode.{slot, words_in, rules_in};

use crate::block::load;
use blocks::Problem;
use checker::Refusal;
use problem::{FIELDS, STRIDE};

// The first byte of item x of blocks that follow each other, 63 items of eight bytes to a block.
fn slot_of(x: usize) -> usize
    requires { x < 4096 }
    ensures { result ≡ slot x }
{
    512 * (x / 63) + 8 + 8 * (x % 63)
}

// The numbers of n words, stored in front; the rest stays as it was.
pub fn store_words(file: &[u8], out: &mut [u64], n: usize)
    requires { (n ≤ 32) × (stride * n ≤ length out.old) × (512 * word_blocks edition1 n ≤ length file.now) }
    ensures { out.new ≡ put out.old 0 (words_in file.now n) }
{
    for (x, number) in out[..STRIDE * n].iter_mut().enumerate() {
        *number = load(file, slot_of(x));
    }
}

// The bytes of m rules, which stand after the blocks of n words, stored in front; the rest stays as it was. Not one function with `store_words`: there each
// eight bytes of a file are one number, here six of each eight are stored as they are, and only the loop is the same.
pub fn store_rules(file: &[u8], out: &mut [u8], n: usize, m: usize)
    requires { (n ≤ 32) × (m ≤ 252) × (fields * m ≤ length out.old) × (512 * (word_blocks edition1 n + rule_blocks edition1 m) ≤ length file.now) }
    ensures { out.new ≡ put out.old 0 (rules_in file.now n m) }
{
    let before = 512 * n.div_ceil(21);
    for (x, byte) in out[..FIELDS * m].iter_mut().enumerate() {
        *byte = file[before + slot_of(x / FIELDS) + x % FIELDS];
    }
}

// Refusals 4 to 9 of the problem in a proper file. It is unpacked here, so that nothing lent is written before it is known to be fine.
pub fn judge(file: &[u8], x: Problem) -> Result<(), Refusal>
    requires { (x.words ≤ 32) × (x.rules ≤ 252) × (512 * (word_blocks edition1 x.words + rule_blocks edition1 x.rules) ≤ length file.now) }
    ensures { result ≡ refusal_with x.limit (words_in file.now x.words) (rules_in file.now x.words x.rules) }
{
    let mut words = [0; 96];
    let mut rules = [0; 1512];
    store_words(file, &mut words, x.words);
    store_rules(file, &mut rules, x.words, x.rules);
    checker::check(
        &words[..STRIDE * x.words],
        &rules[..FIELDS * x.rules],
        x.limit,
    )
}
