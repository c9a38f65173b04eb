// The numbered list of refusals.
ghost use Rattle.std.specs.Prelude.{◌≡◌};
ghost use Rattle.checker.specs.Refusals.{number_of, place_of};

// A refusal of any call, in the order of their numbers, with the block, word or rule that is its place. The others have place 0.
#[derive(Clone, Copy, Debug, PartialEq, Eq)]
pub enum Refusal {
    Size,
    Check(usize),
    Layout(usize),
    Width(usize),
    Table(usize),
    Kind(usize),
    Field(usize),
    Fit(usize),
    Limit,
    Ask,
    Empty,
}

impl Refusal {
    // Its number in the list, from 1.
    pub fn number(self) -> u64
        ensures { result ≡ number_of self }
    {
        match self {
            Refusal::Size => 1,
            Refusal::Check(_) => 2,
            Refusal::Layout(_) => 3,
            Refusal::Width(_) => 4,
            Refusal::Table(_) => 5,
            Refusal::Kind(_) => 6,
            Refusal::Field(_) => 7,
            Refusal::Fit(_) => 8,
            Refusal::Limit => 9,
            Refusal::Ask => 10,
            Refusal::Empty => 11,
        }
    }

    // Its place, 0 where it has none.
    pub fn place(self) -> u64
        ensures { result ≡ place_of self }
    {
        match self {
            Refusal::Check(i) | Refusal::Layout(i) => i as u64,
            Refusal::Width(i) | Refusal::Table(i) => i as u64,
            Refusal::Kind(n) | Refusal::Field(n) | Refusal::Fit(n) => n as u64,
            Refusal::Size | Refusal::Limit | Refusal::Ask | Refusal::Empty => 0,
        }
    }
}
