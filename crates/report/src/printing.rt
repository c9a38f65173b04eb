// The report of each answer, put into lent bytes as lines. 2,304 bytes always do: 32 lines of at most 71 bytes and a first one of at most 25, or two lines
// with at most 252 rule numbers of at most 6 bytes each.
ghost use Rattle.std.specs.Prelude.{◌≤◌, length};
ghost use Rattle.problem.specs.Lent.{widths_of};
ghost use Rattle.report.specs.Text.{named, unnamed, sat, unsat, unknown, refused};
ghost use Rattle.report.specs.Printed.{most, Printed, Valued};

use crate::line::Lines;

// FOUND: the count, and a line per word with its value of the model. How many bytes the report has.
pub fn put_sat(out: &mut [u8], count: u64, words: &[u64], model: &[u64]) -> usize
    requires { Valued words.now model.now × (most ≤ length out.old) }
    ensures { Printed (sat count (widths_of words.now) model.now) out.old out.new result }
{
    let mut lines = Lines { out, at: 0 };
    lines.line(b"sat", &[count]);
    lines.words(words, model);
    lines.at
}

// NONE with its cause, whose rules are listed.
pub fn put_unsat(out: &mut [u8], count: u64, sum: u64, list: &[u16]) -> usize
    requires { (length list.now ≤ 252) × (most ≤ length out.old) }
    ensures { Printed (unsat count (named sum list.now)) out.old out.new result }
{
    let mut lines = Lines { out, at: 0 };
    lines.line(b"unsat", &[count]);
    lines.cause(sum, list);
    lines.at
}

// NONE where a search for the cause gave up.
pub fn put_unnamed(out: &mut [u8], count: u64, sum: u64) -> usize
    requires { most ≤ length out.old }
    ensures { Printed (unsat count (unnamed sum)) out.old out.new result }
{
    let mut lines = Lines { out, at: 0 };
    lines.line(b"unsat", &[count]);
    lines.line(b"cause unknown", &[sum]);
    lines.at
}

// GAVE UP.
pub fn put_unknown(out: &mut [u8], count: u64) -> usize
    requires { most ≤ length out.old }
    ensures { Printed (unknown count) out.old out.new result }
{
    let mut lines = Lines { out, at: 0 };
    lines.line(b"unknown", &[count]);
    lines.at
}

// A refusal.
pub fn put_refused(out: &mut [u8], number: u64, place: u64) -> usize
    requires { most ≤ length out.old }
    ensures { Printed (refused number place) out.old out.new result }
{
    let mut lines = Lines { out, at: 0 };
    lines.line(b"refused", &[number, place]);
    lines.at
}
