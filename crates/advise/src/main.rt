// The adviser: one block file from standard input, the lines of its report to standard output. `report::program::lines_of` promises every byte of them;
// here they are only written. After success standard error is empty. After a read error nothing is written to standard output, and one line on standard error
// says what failed; after a failed write one line there says so, and some of the bytes may have been written. The exit status is 0 in each case.
#![tactic(auto)]

ghost use Rattle.advise.specs.Reading.{InputRead};

use report::program::lines_of;
use std::io;
use std::io::{Error, Read};

// Reads until the input ends or there is no room: how much was read. Each read moves a byte or more, or is the last one, so the turns always do.
fn read_input<R: Read>(input: &mut R, file: &mut [u8]) -> io::Result<usize>
    ensures { InputRead result file.new }
{
    let mut at = 0;
    for _ in 0..file.len() {
        match input.read(&mut file[at..])? {
            0 => break,
            n => at += n,
        }
    }
    Ok(at)
}

// One line on standard error: what failed, and why in the system's words, without the number that they end with.
fn fail(rt: &HostRuntime, what: &str, error: &Error) {
    let said = match format!(in rt.alloc(); "{error}") {
        Ok(text) => match text.as_str().split_once(" (os error ") {
            Some((why, _)) => eprintln!(rt; "{what}: {why}"),
            None => eprintln!(rt; "{what}: {text}"),
        },
        Err(_) => eprintln!(rt; "{what}: {error}"),
    };
    // where standard error cannot be written, nothing is left to say it on
    let _ = said;
}

// One byte more than the longest file is asked for: a file that fills it is too long, and no more of it is read.
fn main(rt: HostRuntime) {
    let mut file = [0; 3585];
    let mut input = rt.stdin();
    match read_input(&mut input, &mut file) {
        Err(error) => fail(&rt, "standard input", &error),
        Ok(n) => {
            let mut out = [0; 2304];
            let mut work = [0; 5120];
            if let Err(error) = rt.write_all(lines_of(&file[..n], &mut out, &mut work)) {
                fail(&rt, "standard output", &error);
            }
        }
    }
}
