// The answer of each call as one number: its own number in bits 0 to 7, its place, count, value, limit or length in bits 8 to 39, and above them how many
// entries or records there are.
#![tactic(auto)]

ghost use Rattle.std.specs.Prelude.{◌≡◌};
ghost use Rattle.packing.specs.Numbers.{numbered};
ghost use Rattle.packing.specs.declared.Parts.{Parts};
ghost use Rattle.packing.specs.Packed.{packed, Within, returned, passed, tight_or_not, settings, reason, named, counts, long};

use blocks::Problem;
use cause::Caused;
use checker::Refusal;
use explain::Explained;
use solve::Solved;

// The answers that are no refusals, with their numbers, as C gets them.
#[derive(Clone, Copy, Debug, PartialEq, Eq)]
pub enum Code {
    Found = 32,
    None = 33,
    GaveUp = 34,
    Ok = 35,
    Tight = 36,
    Conflict = 37,
    Forced = 38,
    Free = 39,
    Exists = 40,
    Cause = 41,
}

// What stands in the one number: the answer's own number; its place, count, value, limit or length; and how many entries or records there are.
#[derive(Clone, Copy, Debug, PartialEq, Eq)]
pub struct Parts {
    pub number: u64,
    pub count: u64,
    pub more: u64,
}

impl Parts {
    fn answer(code: Code, count: u64, more: u64) -> Parts
        ensures { result ≡ record { number = numbered code; count = count; more = more } }
    {
        Parts::new(code as u64, count, more)
    }

    fn new(number: u64, count: u64, more: u64) -> Parts
        ensures { result ≡ record { number = number; count = count; more = more } }
    {
        Parts {
            number,
            count,
            more,
        }
    }

    fn pack(self) -> u64
        requires { Within self }
        ensures { result ≡ packed self }
    {
        self.number + 256 * self.count + 1099511627776 * self.more
    }
}

// An answer that is no refusal.
pub trait Answer {
    ghost parts: { Self → Parts };

    fn into_parts(self) -> Parts
        requires { Within (parts self) }
        ensures { result ≡ parts self };
}

// `check`: the problem is proper.
impl Answer for () {
    ghost parts = { passed };

    fn into_parts(self) -> Parts {
        Parts::answer(Code::Ok, 0, 0)
    }
}

impl Answer for tighten::Answer {
    ghost parts = { tight_or_not };

    fn into_parts(self) -> Parts {
        match self {
            tighten::Answer::Tight => Parts::answer(Code::Tight, 0, 0),
            tighten::Answer::Conflict => Parts::answer(Code::Conflict, 0, 0),
        }
    }
}

impl Answer for Solved {
    ghost parts = { settings };

    fn into_parts(self) -> Parts {
        match self {
            Solved::Found(count) => Parts::answer(Code::Found, count, 0),
            Solved::Nothing(count) => Parts::answer(Code::None, count, 0),
            Solved::GaveUp(count) => Parts::answer(Code::GaveUp, count, 0),
        }
    }
}

impl Answer for Explained {
    ghost parts = { reason };

    fn into_parts(self) -> Parts {
        match self {
            Explained::Conflict(entries) => Parts::answer(Code::Conflict, 0, entries),
            Explained::Forced(value, entries) => Parts::answer(Code::Forced, value, entries),
            Explained::Free => Parts::answer(Code::Free, 0, 0),
        }
    }
}

impl Answer for Caused {
    ghost parts = { named };

    fn into_parts(self) -> Parts {
        match self {
            Caused::Exists(count) => Parts::answer(Code::Exists, count, 0),
            Caused::GaveUp(count) => Parts::answer(Code::GaveUp, count, 0),
            Caused::Cause(count, entries) => Parts::answer(Code::Cause, count, entries),
        }
    }
}

// `read`: what the file holds.
impl Answer for Problem {
    ghost parts = { counts };

    fn into_parts(self) -> Parts {
        Parts::answer(
            Code::Ok,
            u64::from(self.limit),
            self.words as u64 + 256 * self.rules as u64,
        )
    }
}

// `write` and `advise`: the length of the file, or of the lines.
impl Answer for usize {
    ghost parts = { long };

    fn into_parts(self) -> Parts {
        Parts::answer(Code::Ok, self as u64, 0)
    }
}

// The answer of a call, or its refusal, as one number.
pub fn pack<A: Answer>(x: Result<A, Refusal>) -> u64
    requires { Within (returned A.parts x) }
    ensures { result ≡ packed (returned A.parts x) }
{
    let parts = match x {
        Ok(answer) => answer.into_parts(),
        Err(refusal) => Parts::new(refusal.number(), refusal.place(), 0),
    };
    parts.pack()
}
