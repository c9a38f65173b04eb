// Decimal numbers below 2^64, with as few digits as hold them, read and put.
ghost use Rattle.std.specs.Prelude.{◌+◌, ◌*◌, ◌≤◌, ◌<◌, length, SomeIff};
ghost use Rattle.decimal.specs.Digits.{digit_of};
ghost use Rattle.decimal.specs.Text.{decimal};
ghost use Rattle.decimal.specs.Reading.{IsNumber};
ghost use Rattle.decimal.specs.Putting.{Appended, RoomFor, Spaced};

use crate::BLANK;

// What a byte stands for as a digit, if it is one.
fn digit(x: u8) -> Option<u64>
    ensures { SomeIff result (digit_of x < 10) (digit_of x) }
{
    match x {
        b'0'..=b'9' => Some(u64::from(x - b'0')),
        _ => None,
    }
}

// The number that begins at `at`, and where it ends, if there is one. A 0 in front of other digits is refused, and so is what does not fit 64 bits.
pub fn read(s: &[u8], at: usize) -> Option<(u64, usize)>
    ensures { IsNumber s.now at result }
{
    let mut v = digit(*s.get(at)?)?;
    let mut e = at + 1;
    for &x in &s[e..] {
        let Some(d) = digit(x) else {
            break;
        };
        if v == 0 {
            return None;
        }
        v = v.checked_mul(10)?.checked_add(d)?;
        e += 1;
    }
    Some((v, e))
}

// The digits of n put at `at`: where they end.
pub fn put(out: &mut [u8], at: usize, n: u64) -> usize
    requires { at + length (decimal n) ≤ length out.old }
    ensures { Appended out.old at (decimal n) out.new result }
{
    if n < 10 {
        out[at] = b'0' + n as u8;
        return at + 1;
    }
    let e = put(out, at, n / 10);
    out[e] = b'0' + (n % 10) as u8;
    e + 1
}

// Each number put after a blank: where they end.
pub fn put_all<T: Copy + Into<u64>>(out: &mut [u8], at: usize, numbers: &[T]) -> usize
    requires { RoomFor T.converts out.old at numbers.now }
    ensures text { Spaced T.converts out.old at numbers.now out.new result }
    ensures end { result ≤ at + 21 * length numbers.now }
{
    let mut e = at;
    for &x in numbers {
        let n = x.into();
        out[e] = BLANK;
        e = put(out, e + 1, n);
    }
    e
}
