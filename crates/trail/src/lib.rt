// The copy of the last tight table, and the trail that takes its changes back, in one lent memory: the table at 0..64, the copy at 316..380, then the trail.
// An entry of the trail is two numbers: which number of the copy changed, and what it was.
#![tactic(auto)]

ghost use Rattle.std.specs.Prelude.{◌⊎◌, ◌+◌, ◌*◌, ◌<◌, ◌≤◌, length};
ghost use Rattle.lists.specs.Lists.{at};
ghost use Rattle.trail.specs.Trail.{apart, changes, Kept, Committed, Back, RolledBack, Moved};

// A table takes 64 numbers: the low bounds of its words, and from 32 on their high bounds.
const HIGH: usize = 32;

const TABLE: usize = 64;

// Where the copy and the trail begin.
pub const COPY: usize = 316;

pub const TRAIL: usize = 380;

// Number k of the copy follows the table's; what it was goes on the trail, after n entries. How many entries there are then.
fn keep(work: &mut [u64], n: usize, k: usize) -> usize
    requires { (k < 64) × (380 ≤ length work.old) × (380 + 2 * (n + apart (at work.old k) (at work.old (316 + k))) ≤ length work.old) }
    ensures { Kept work.old n k work.new result }
{
    let new = work[k];
    let old = work[COPY + k];
    if new == old {
        return n;
    }
    work[TRAIL + 2 * n] = k as u64;
    work[TRAIL + 2 * n + 1] = old;
    work[COPY + k] = new;
    n + 1
}

// The copy of n words becomes the table, with the changes on the trail after `base` entries. How many entries there are then.
pub fn commit(work: &mut [u64], n: usize, base: usize) -> usize
    requires { (n ≤ 32) × (380 ≤ length work.old) × (380 + 2 * (base + changes n work.old) ≤ length work.old) }
    ensures { Committed n base work.old work.new result }
{
    let mut entries = base;
    for i in 0..n {
        entries = keep(work, entries, i);
        entries = keep(work, entries, i + HIGH);
    }
    entries
}

// The number that entry j names, as it was; one that is no number of the copy names nothing.
fn put_back(work: &mut [u64], j: usize)
    requires { 380 + 2 * j + 1 < length work.old }
    ensures { Back work.old j work.new }
{
    let k = work[TRAIL + 2 * j] as usize;
    let old = work[TRAIL + 2 * j + 1];
    if k < TABLE {
        work[COPY + k] = old;
    }
}

// The entries from `base` on are taken back, the last first.
pub fn rollback(work: &mut [u64], base: usize, entries: usize)
    requires { (base ≤ entries) × (380 + 2 * entries ≤ length work.old) }
    ensures { RolledBack base entries work.old work.new }
{
    for j in (base..entries).rev() {
        put_back(work, j);
    }
}

// The bounds of n words, from one place in memory to another. By the library's `copy_within` the archive for C would ask for `memmove`.
pub fn copy_table(work: &mut [u64], n: usize, from: usize, to: usize)
    requires { (n ≤ 32) × (from + 64 ≤ length work.old) × (to + 64 ≤ length work.old) × ((from + 64 ≤ to) ⊎ (to + 64 ≤ from)) }
    ensures { Moved n from to work.old work.new }
{
    for i in 0..n {
        work[to + i] = work[from + i];
        work[to + HIGH + i] = work[from + HIGH + i];
    }
}
