// Decimal numbers and bytes put into lent bytes, one behind the other, and decimal numbers read.
#![tactic(auto)]

pub mod number;

ghost use Rattle.std.specs.Prelude.{◌+◌, ◌≤◌, length};
ghost use Rattle.decimal.specs.Putting.{Appended};

pub const BLANK: u8 = b' ';

// The bytes of s put at `at`: where they end.
pub fn put_bytes(out: &mut [u8], at: usize, s: &[u8]) -> usize
    requires { at + length s.now ≤ length out.old }
    ensures { Appended out.old at s.now out.new result }
{
    let e = at + s.len();
    out[at..e].copy_from_slice(s);
    e
}
