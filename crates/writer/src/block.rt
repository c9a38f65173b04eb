// A block written whole: records of one form, or the end.
// It is lent as a slice, not an array: what a part of a file ends as is not known once it is lent on by `as_mut_array`, in an Option.
ghost use Rattle.std.specs.Prelude.{◌≡◌, ◌+◌, ◌^◌, ◌<◌, ◌≤◌, length};
ghost use Rattle.blocks.specs.Bytes.{le};
ghost use Rattle.lists.specs.Lists.{flat};
ghost use Rattle.blocks.specs.Edition.{edition1};
ghost use Rattle.blocks.specs.Written.{block};

use crate::bytes::{finish, put_bytes, put_head};
use crate::record::Records;

// Block i, whole: c records from record `first` on.
pub fn records_block<R: Records>(b: &mut [u8], i: usize, records: &R, first: usize, c: usize)
    requires { (length b.old ≡ 512) × (c ≤ R.form.most) × (first + c ≤ R.many records.now) × (first + c < 2 ^ 64) }
    ensures { b.new ≡ block edition1 R.kind i c (flat c (λ j. R.bytes records.now (first + j))) }
{
    let shape = records.shape();
    put_head(b, shape.kind, i, c);
    for j in 0..c {
        records.store(b, 8 + shape.size * j, first + j);
    }
    finish(b, 8 + shape.size * c);
}

// Block i, whole: the end block with the limit.
pub fn end_block(b: &mut [u8], i: usize, limit: u32)
    requires { length b.old ≡ 512 }
    ensures { b.new ≡ block edition1 3 i 0 (le 4 limit) }
{
    put_head(b, 3, i, 0);
    put_bytes(b, 8, &limit.to_le_bytes());
    finish(b, 12);
}
