// The list of rule numbers in work memory: those not decided yet, then those kept. One number taken out of it and put in again, and the kept ones given back.
ghost use Rattle.std.specs.Prelude.{◌≡◌, ◌+◌, ◌<◌, ◌≤◌, length};
ghost use Rattle.lists.specs.Lists.{at};
ghost use Rattle.cause.specs.Listing.{Removed, Inserted, Held, Short};

use tighten::buffer::LIST;

// The number after n others taken out: the k after it move down.
pub fn remove(work: &mut [u64], n: usize, k: usize)
    requires { (n + k < 252) × (316 ≤ length work.old) }
    ensures { Removed n k work.old work.new }
{
    let place = LIST + n;
    work.copy_within(place + 1..place + 1 + k, place);
}

// The number n put in after n others: the k after them move up.
pub fn insert(work: &mut [u64], n: usize, k: usize)
    requires { (n + k < 252) × (316 ≤ length work.old) }
    ensures { Inserted n k work.old work.new × (at work.new (64 + n) ≡ n) }
{
    let place = LIST + n;
    work.copy_within(place..place + k, place + 1);
    work[place] = n as u64;
}

// The first k numbers listed, given back as the first entries of a list.
pub fn give(list: &mut [u16], work: &[u64], k: usize)
    requires { (k ≤ length list.old) × Short k work.now }
    ensures { Held k work.now list.old list.new }
{
    for (j, entry) in list[..k].iter_mut().enumerate() {
        *entry = work[LIST + j] as u16;
    }
}
