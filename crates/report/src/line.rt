// The lines of a report, put into lent bytes one behind the other, and what stands on them: a value in binary, a name and numbers.
ghost use Rattle.std.specs.Prelude.{map, ◌+◌, ◌*◌, ◌≤◌, ◌<◌, length};
ghost use Rattle.problem.specs.Lent.{word_count, widths_of};
ghost use Rattle.decimal.specs.Text.{decimal};
ghost use Rattle.decimal.specs.Putting.{Appended};
ghost use Rattle.report.specs.Text.{line, binary, word_line, word_lines, cause_line, named};
ghost use Rattle.report.specs.Printed.{Valued};
ghost use Rattle.report.specs.Lines.{Puts};

use decimal::number;
use problem::STRIDE;

// Lent bytes, and where the lines in them end.
#[derive(Drop)]
pub struct Lines<'a> {
    pub out: &'a mut [u8],
    pub at: usize,
}

// The value in binary with exactly `width` digits, the highest bit first: where they end.
fn put_binary(out: &mut [u8], at: usize, width: usize, value: u64) -> usize
    requires { (width ≤ 64) × (at + width ≤ length out.old) }
    ensures { Appended out.old at (binary width value) out.new result }
{
    for (i, digit) in out[at..at + width].iter_mut().enumerate() {
        *digit = b'0' + ((value >> (width - 1 - i)) % 2) as u8;
    }
    at + width
}

impl<'a> Lines<'a> {
    // A name and numbers, parted by blanks, and the line's end.
    pub fn line(&mut self, name: &[u8], numbers: &[u64])
        requires { self.old.at + length name.now + 21 * length numbers.now + 1 ≤ length self.old.out.now }
        ensures { Puts self.old (line name.now (map decimal numbers.now)) self.new
            × (self.new.at ≤ self.old.at + length name.now + 21 * length numbers.now + 1) }
    {
        self.at = decimal::put_bytes(self.out, self.at, name);
        self.at = number::put_all(self.out, self.at, numbers);
        self.at = decimal::put_bytes(self.out, self.at, b"\n");
    }

    // The line of a word: number, width, value.
    pub fn word(&mut self, number: u64, width: u64, value: u64)
        requires { (number < 100) × (width ≤ 64) × (self.old.at + 71 ≤ length self.old.out.now) }
        ensures { Puts self.old (word_line number width value) self.new × (self.new.at ≤ self.old.at + 71) }
    {
        self.at = number::put(self.out, self.at, number);
        self.at = number::put_all(self.out, self.at, &[width]);
        self.at = decimal::put_bytes(self.out, self.at, b" ");
        self.at = put_binary(self.out, self.at, width as usize, value);
        self.at = decimal::put_bytes(self.out, self.at, b"\n");
    }

    // A line per word, with its value of the model.
    pub fn words(&mut self, words: &[u64], model: &[u64])
        requires { Valued words.now model.now × (self.old.at + 71 * word_count words.now ≤ length self.old.out.now) }
        ensures { Puts self.old (word_lines (widths_of words.now) model.now) self.new }
    {
        for i in 0..words.len() / STRIDE {
            self.word(i as u64, words[STRIDE * i], model[i]);
        }
    }

    // The line of a cause, whose rules are listed.
    pub fn cause(&mut self, sum: u64, list: &[u16])
        requires { self.old.at + 6 * length list.now + 27 ≤ length self.old.out.now }
        ensures { Puts self.old (cause_line (named sum list.now)) self.new }
    {
        self.at = decimal::put_bytes(self.out, self.at, b"cause");
        self.at = number::put_all(self.out, self.at, &[sum]);
        self.at = number::put_all(self.out, self.at, list);
        self.at = decimal::put_bytes(self.out, self.at, b"\n");
    }
}
