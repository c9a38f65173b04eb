// What the program `advise` prints: all of it is promised here, so that the program only reads, calls and writes.
ghost use Rattle.tighten.specs.Memory.{Cleared};
ghost use Rattle.report.specs.Promise.{Lent};
ghost use Rattle.report.specs.Advice.{Advice};

// The lines of the advice on a file, as a part of the lent bytes; work memory is all 0 afterwards. With 2,304 bytes and work memory of 5,120 numbers `advise`
// always has lines to give, within the lent bytes, so nothing is tested. The lent bytes behind the lines are `advise`'s to promise: a
// contract cannot speak of a slice a part of which is handed back.
pub fn lines_of<'a>(file: &[u8], out: &'a mut [u8], work: &mut [u64]) -> &'a [u8]
    requires { Lent out.old work.old }
    ensures { Advice file.now result.now × Cleared work.old work.new }
{
    let n = crate::advise(file, out, work).unwrap();
    &out[..n]
}
