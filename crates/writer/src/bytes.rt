// Bytes put down: bytes lent, zeros, a block's header, and its end with the check.
ghost use Rattle.std.specs.Prelude.{◌≡◌, [], ◌+◌, ◌≤◌, ◌-◌, length};
ghost use Rattle.lists.specs.Lists.{put, zeros};
ghost use Rattle.blocks.specs.Edition.{edition1};
ghost use Rattle.blocks.specs.Written.{seal, headed};

pub fn put_zeros(b: &mut [u8], at: usize, k: usize)
    requires { at + k ≤ length b.old }
    ensures { b.new ≡ put b.old at (zeros k) }
{
    b[at..at + k].fill(0);
}

// The bytes of xs put at `at`. `decimal::put_bytes` also tells where they end, which nothing asks here: the places in a block are fixed.
pub fn put_bytes(b: &mut [u8], at: usize, xs: &[u8])
    requires { at + length xs.now ≤ length b.old }
    ensures { b.new ≡ put b.old at xs.now }
{
    b[at..at + xs.len()].copy_from_slice(xs);
}

// A block's header: kind, edition, number, count, and no check yet.
pub fn put_head(b: &mut [u8], kind: u8, i: usize, c: usize)
    requires { 8 ≤ length b.old }
    ensures { b.new ≡ put b.old 0 (headed edition1 kind i c []) }
{
    let [i_low, i_high, ..] = i.to_le_bytes();
    let [c_low, c_high, ..] = c.to_le_bytes();
    let head = [kind, 1, i_low, i_high, c_low, c_high, 0, 0];
    put_bytes(b, 0, &head);
}

// Zeros from a place to a block's end, then the check where it makes the sum right.
pub fn finish(b: &mut [u8], at: usize)
    requires { (length b.old ≡ 512) × (at ≤ 512) }
    ensures { b.new ≡ seal (put b.old at (zeros (512 - at))) }
{
    put_zeros(b, at, 512 - at);
    let s = 65535 - blocks::sum_of(b.as_array().unwrap());
    put_bytes(b, 6, &s.to_le_bytes());
}
