// The table of a problem put into work memory, the rules listed there, the bounds put back, and the memory cleared.
ghost use Rattle.std.specs.Prelude.{◌≡◌, ◌+◌, ◌≤◌, length};
ghost use Rattle.problem.specs.Lent.{word_count};
ghost use Rattle.tighten.specs.Memory.{Loaded, Numbered, Cleared, put_bounds};

use problem::STRIDE;

// Where the high bounds of the words begin, and the numbers of the rules.
pub const HIGH: usize = 32;

pub const LIST: usize = 64;

// The bounds of words, put into memory.
pub fn load(work: &mut [u64], words: &[u64])
    requires { (word_count words.now ≤ 32) × (64 ≤ length work.old) }
    ensures { Loaded (word_count words.now) words.now work.old work.new }
{
    for i in 0..words.len() / STRIDE {
        work[i] = words[STRIDE * i + 1];
        work[i + HIGH] = words[STRIDE * i + 2];
    }
}

// The rules 0 to c - 1 listed.
pub fn list_all(work: &mut [u64], c: usize)
    requires { (c ≤ 252) × (64 + c ≤ length work.old) }
    ensures { Numbered c work.old work.new }
{
    for (j, number) in work[LIST..LIST + c].iter_mut().enumerate() {
        *number = j as u64;
    }
}

// The bounds of words, from memory.
pub fn unload(words: &mut [u64], work: &[u64])
    requires { (word_count words.old ≤ 32) × (64 ≤ length work.now) }
    ensures { words.new ≡ put_bounds (word_count words.old) work.now words.old }
{
    for i in 0..words.len() / STRIDE {
        words[STRIDE * i + 1] = work[i];
        words[STRIDE * i + 2] = work[i + HIGH];
    }
}

// Zeros, as far as the memory goes.
pub fn clear(work: &mut [u64])
    ensures { Cleared work.old work.new }
{
    work.fill(0);
}
