// The calls for C and Rust. A slice passes as a pointer and its length; an answer comes back as one number, so that none travels through lent memory.
// Each call promises what the library's own call promises, and that its number is that answer's.
#![tactic(auto)]

ghost use Rattle.std.specs.Prelude.{◌≡◌};
ghost use Rattle.checker.specs.Refusal.{refusal_with};
ghost use Rattle.tighten.specs.Promise.{Tightening};
ghost use Rattle.solve.specs.Promise.{Solving};
ghost use Rattle.explain.specs.Promise.{Explaining};
ghost use Rattle.cause.specs.Promise.{Causing};
ghost use Rattle.blocks.specs.Edition.{edition1};
ghost use Rattle.blocks.specs.Promise.{Reads, Writes};
ghost use Rattle.report.specs.Promise.{Advises};
ghost use Rattle.packing.specs.Packed.{Returns, checked, tightened, solved, explained, caused, read, written, advised};

use packing::pack;

#[unsafe(no_mangle)]
pub extern "C" fn sievecrest_check(words: &[u64], rules: &[u8], limit: u32) -> u64
    ensures { Returns (λ x. x ≡ refusal_with limit words.now rules.now) checked result }
{
    pack(checker::check(words, rules, limit))
}

#[unsafe(no_mangle)]
pub extern "C" fn sievecrest_tighten(words: &mut [u64], rules: &[u8], work: &mut [u64]) -> u64
    ensures { Returns (λ x. Tightening words.old rules.now work.old x words.new work.new)
        tightened result }
{
    pack(tighten::tighten(words, rules, work))
}

#[unsafe(no_mangle)]
pub extern "C" fn sievecrest_solve(
    words: &[u64],
    rules: &[u8],
    limit: u32,
    model: &mut [u64],
    work: &mut [u64],
) -> u64
    ensures { Returns (λ x. Solving limit words.now rules.now model.old work.old x model.new
        work.new) solved result }
{
    pack(solve::solve(words, rules, limit, model, work))
}

#[unsafe(no_mangle)]
pub extern "C" fn sievecrest_explain(
    words: &[u64],
    rules: &[u8],
    rule: u64,
    place: u64,
    bit: u64,
    list: &mut [u16],
) -> u64
    ensures { Returns (λ x. Explaining words.now rules.now rule place bit list.old x list.new)
        explained result }
{
    pack(explain::explain(words, rules, rule, place, bit, list))
}

#[unsafe(no_mangle)]
pub extern "C" fn sievecrest_cause(
    words: &[u64],
    rules: &[u8],
    limit: u32,
    list: &mut [u16],
    work: &mut [u64],
) -> u64
    ensures { Returns (λ x. Causing limit words.now rules.now list.old work.old x list.new
        work.new) caused result }
{
    pack(cause::cause(words, rules, limit, list, work))
}

#[unsafe(no_mangle)]
pub extern "C" fn sievecrest_read(file: &[u8], words: &mut [u64], rules: &mut [u8]) -> u64
    ensures { Returns (Reads edition1 file.now words.old rules.old words.new rules.new)
        read result }
{
    pack(reader::read(file, words, rules))
}

#[unsafe(no_mangle)]
pub extern "C" fn sievecrest_write(words: &[u64], rules: &[u8], limit: u32, file: &mut [u8]) -> u64
    ensures { Returns (Writes edition1 limit words.now rules.now file.old file.new) written result }
{
    pack(writer::write(words, rules, limit, file))
}

// Only as many of the lent bytes as a report can have are passed on.
#[unsafe(no_mangle)]
pub extern "C" fn sievecrest_advise(file: &[u8], out: &mut [u8], work: &mut [u64]) -> u64
    ensures { Returns (λ x. Advises file.now out.old work.old x out.new work.new)
        advised result }
{
    let n = out.len().min(report::MOST);
    pack(report::advise(file, &mut out[..n], work))
}
