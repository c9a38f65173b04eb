// One block by itself: the numbers in it, its zeros, and which of the three kinds it is.
ghost use Rattle.std.specs.Prelude.{◌≡◌, ◌+◌, ◌*◌, ◌<◌, ◌≤◌, length};
ghost use Rattle.blocks.specs.Bytes.{from_le};
ghost use Rattle.lists.specs.Lists.{part};
ghost use Rattle.blocks.specs.Block.{Sound, Clear, Records};
ghost use Rattle.lists.specs.Tests.{Decides};
ghost use Rattle.reader.specs.Tests.{Gaps, Is};

use crate::Body;

// The bytes of a record, how many of its first eight are used, and the records of a full block, which have room after its header.
#[derive(Clone, Copy)]
struct Shape {
    size: usize,
    used: usize,
    most: usize,
    ghost fits: { (size * most ≤ 504) × (8 ≤ size) × (used ≤ 8) },
}

const WORDS: Shape = Shape {
    size: 24,
    used: 1,
    most: 21,
};

const RULES: Shape = Shape {
    size: 8,
    used: 6,
    most: 63,
};

// The number that eight bytes from a place on make, the lowest first.
pub fn load(b: &[u8], at: usize) -> u64
    requires { at + 8 ≤ length b.now }
    ensures { result ≡ from_le (part b.now at 8) }
{
    u64::from_le_bytes(b[at..at + 8].try_into().unwrap())
}

// Whether the bytes from one place up to another are 0. Most bytes of a small file are looked at here, and the iterator's `all` takes nearly twice the
// instructions for each.
fn is_clear(b: &[u8], from: usize, to: usize) -> bool
    requires { to ≤ length b.now }
    ensures { Decides (Clear b.now from to) result }
{
    for x in from..to {
        if b[x] != 0 {
            return false;
        }
    }
    true
}

// Whether the unused bytes among the first eight are 0 in each of c records.
fn has_gaps(b: &[u8; 512], c: usize, shape: Shape) -> bool
    requires { shape.size * c ≤ 504 }
    ensures { Decides (Gaps shape.size shape.used c b.now) result }
{
    let Shape { size, used, .. } = shape;
    (0..c).all(|j| is_clear(b, 8 + size * j + used, 8 + size * j + 8))
}

// Whether a block holds c records, one or more and at most a full block's, with 0 in all bytes that they do not use.
fn has_records(b: &[u8; 512], c: usize, shape: Shape) -> bool
    ensures { Decides (Records shape.size shape.used shape.most c b.now) result }
{
    0 < c && c <= shape.most && has_gaps(b, c, shape) && is_clear(b, 8 + shape.size * c, 512)
}

// The limit that an end block gives.
fn limit_of(b: &[u8; 512]) -> u32
    ensures { result ≡ from_le (part b.now 8 4) }
{
    u32::from_le_bytes([b[8], b[9], b[10], b[11]])
}

// What a block whose sum is right is as block i, if it is one of the three.
pub fn body_of(b: &[u8; 512], i: usize) -> Option<Body>
    requires { Sound b.now }
    ensures { Is i b.now result }
{
    if b[1] != 1 {
        return None;
    }
    if usize::from(blocks::number_at(b, 1)) != i {
        return None;
    }
    let c = usize::from(blocks::number_at(b, 2));
    match b[0] {
        1 => has_records(b, c, WORDS).then_some(Body::Words(c)),
        2 => has_records(b, c, RULES).then_some(Body::Rules(c)),
        3 => (c == 0 && is_clear(b, 12, 512)).then_some(Body::End(limit_of(b))),
        _ => None,
    }
}
