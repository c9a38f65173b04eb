// The guess: the lowest-numbered word with an open bit, its highest open bit fixed 0, and then fixed 1 in the tight table.
ghost use Rattle.std.specs.Prelude.{◌≡◌, ◌+◌, ◌<◌, ◌≤◌, length};
ghost use Rattle.search.specs.Guessing.{Lowest, Fixable, zero_fixed, one_fixed, Copied, Second};

use tighten::buffer::HIGH;

// The lowest-numbered of n words with an open bit.
pub fn open_word(work: &[u64], n: usize) -> Option<usize>
    requires { (n ≤ 32) × (64 ≤ length work.now) }
    ensures { Lowest n work.now result }
{
    (0..n).find(|&i| words::open_bits(work[i], work[i + HIGH]) > 0)
}

// The highest open bit of a word fixed 0.
pub fn fix_first(work: &mut [u64], i: usize)
    requires { Fixable work.old i }
    ensures { work.new ≡ zero_fixed work.old i }
{
    let k = i + HIGH;
    let j = words::highest_open(work[i], work[k]);
    work[k] = words::fix_zero(work[k], j);
}

// The highest open bit of a word fixed 1: the low bound rises, where the other value lowers the high one.
fn fix_second(work: &mut [u64], i: usize)
    requires { Fixable work.old i }
    ensures { work.new ≡ one_fixed work.old i }
{
    let j = words::highest_open(work[i], work[i + HIGH]);
    work[i] = words::fix_one(work[i], j);
}

// The table becomes the copy of n words, with the highest open bit of word i fixed 1.
pub fn second_value(work: &mut [u64], n: usize, i: usize)
    requires { Copied n work.old i }
    ensures { Second n work.old i work.new }
{
    trail::copy_table(work, n, trail::COPY, 0);
    fix_second(work, i);
}
