// Writing a block file: the room for it, the check of the problem, then block by block. Nothing lent is written unless the answer is OK.
#![tactic(auto)]

mod block;
mod bytes;
mod record;

ghost use Rattle.std.specs.Prelude.{◌≡◌, ◌+◌, ◌*◌, ◌≤◌, ◌-◌, length};
ghost use Rattle.lists.specs.Lists.{put};
ghost use Rattle.blocks.specs.Edition.{edition1};
ghost use Rattle.blocks.specs.Written.{blocks_for, blocks_of, encode, Storable};
ghost use Rattle.blocks.specs.Promise.{Writes};
ghost use Rattle.writer.specs.Items.{room_for};

use block::{end_block, records_block};
use checker::Refusal;
use record::{Records, Rules, Words};

// Records to a full block.
const WORDS: usize = 21;

const RULES: usize = 63;

// The blocks of records of one form, after `before` blocks.
fn write_blocks<R: Records>(file: &mut [u8], before: usize, records: &R)
    requires { (before ≤ 2) × (512 * (before + blocks_for R.form.most (R.many records.now)) ≤ length file.old) }
    ensures { file.new ≡ put file.old (512 * before) (blocks_of edition1 R.kind R.form.most before (R.many records.now) (R.bytes records.now)
        (blocks_for R.form.most (R.many records.now))) }
{
    let n = records.count();
    let most = records.shape().most;
    for q in 0..n.div_ceil(most) {
        let first = most * q;
        let at = 512 * (before + q);
        records_block(
            &mut file[at..at + 512],
            before + q,
            records,
            first,
            most.min(n - first),
        );
    }
}

// The whole file, from the first byte on; its length comes back.
fn write_all(file: &mut [u8], words: &[u64], rules: &[u8], limit: u32) -> usize
    requires { Storable limit words.now rules.now × (length (encode edition1 limit words.now rules.now) ≤ length file.old) }
    ensures { (result ≡ length (encode edition1 limit words.now rules.now))
        × (file.new ≡ put file.old 0 (encode edition1 limit words.now rules.now)) }
{
    let before = (words.len() / problem::STRIDE).div_ceil(WORDS);
    let k = before + (rules.len() / problem::FIELDS).div_ceil(RULES);
    let at = 512 * k;
    let e = at + 512;
    write_blocks(file, 0, &Words { list: words });
    write_blocks(file, before, &Rules { list: rules });
    end_block(&mut file[at..e], k, limit);
    e
}

// Whether the lengths of lent words and rules are not over those of 32 words and 252 rules, and a file of so many bytes has room for their blocks.
fn has_room(words: usize, rules: usize, file: usize) -> bool
    ensures { result ≡ room_for words rules file }
{
    if words > 96 {
        return false;
    }
    if rules > 1512 {
        return false;
    }
    let before = (words / problem::STRIDE).div_ceil(WORDS);
    512 * (before + (rules / problem::FIELDS).div_ceil(RULES) + 1) <= file
}

// Writes a problem of lent words, three numbers each, and lent rules, six bytes each, as a file. OK with the file's length: its bytes are stored, in front,
// and the rest stays as it was. Else the first refusal in order, and nothing is altered.
pub fn write(words: &[u64], rules: &[u8], limit: u32, file: &mut [u8]) -> Result<usize, Refusal>
    ensures { Writes edition1 limit words.now rules.now file.old file.new result }
{
    if !has_room(words.len(), rules.len(), file.len()) {
        return Err(Refusal::Size);
    }
    checker::check(words, rules, limit)?;
    Ok(write_all(file, words, rules, limit))
}
