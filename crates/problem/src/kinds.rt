// The kinds, the places of a rule, and the fixed table of fourteen rows, which says of each kind how the widths must fit and what it uses.
ghost use Rattle.std.specs.Prelude.{◌≡◌, ◌<◌};
ghost use Rattle.rules.specs.Rows.{class, uses};
ghost use Rattle.rules.specs.ProperProblem.{uses_k};
ghost use Rattle.problem.specs.Named.{kind_named, place_named, class_named, KindRead, place_number, PlaceRead};

// The kinds.
#[derive(Clone, Copy, Debug, PartialEq, Eq)]
pub enum Kind {
    Copy,
    Not,
    And,
    Or,
    Xor,
    Add,
    Ite,
    Slice,
    Join,
    Shl,
    Shr,
    Ule,
    Ult,
    Ne,
}

// A number that is no kind's.
#[derive(Clone, Copy, Debug, PartialEq, Eq)]
pub struct UnknownKind(pub u8);

impl TryFrom<u8> for Kind {
    type Error = UnknownKind;

    ghost try_from_gives = { KindRead };

    #[tactic(auto, unfolding(rules::specs::Kinds::kind_of))]
    fn try_from(number: u8) -> Result<Self, UnknownKind> {
        match number {
            1 => Ok(Kind::Copy),
            2 => Ok(Kind::Not),
            3 => Ok(Kind::And),
            4 => Ok(Kind::Or),
            5 => Ok(Kind::Xor),
            6 => Ok(Kind::Add),
            7 => Ok(Kind::Ite),
            8 => Ok(Kind::Slice),
            9 => Ok(Kind::Join),
            10 => Ok(Kind::Shl),
            11 => Ok(Kind::Shr),
            12 => Ok(Kind::Ule),
            13 => Ok(Kind::Ult),
            14 => Ok(Kind::Ne),
            _ => Err(UnknownKind(number)),
        }
    }
}

// The places of a rule, its fields r, a, b and s, with their numbers.
#[derive(Clone, Copy, Debug, PartialEq, Eq)]
pub enum Place {
    R,
    A,
    B,
    S,
}

impl Place {
    // The places in order.
    pub const ALL: [Place; 4] = [Place::R, Place::A, Place::B, Place::S];
}

// A number that is no place's.
#[derive(Clone, Copy, Debug, PartialEq, Eq)]
pub struct UnknownPlace(pub u64);

impl TryFrom<u64> for Place {
    type Error = UnknownPlace;

    ghost try_from_gives = { PlaceRead };

    fn try_from(number: u64) -> Result<Self, UnknownPlace> {
        match number {
            0 => Ok(Place::R),
            1 => Ok(Place::A),
            2 => Ok(Place::B),
            3 => Ok(Place::S),
            _ => Err(UnknownPlace(number)),
        }
    }
}

impl From<Place> for u64 {
    ghost from_gives = { λ p n. (n ≡ place_number p) × (n < 4) };

    fn from(place: Place) -> u64 {
        place as u64
    }
}

// How the widths must fit.
#[derive(Clone, Copy, Debug, PartialEq, Eq)]
pub enum Class {
    // r and a equal
    EqualRA,
    // r, a and b equal
    EqualRAB,
    // r, a and b equal, s of width 1
    Chosen,
    // r a part of a
    Part,
    // r as wide as a and b together
    Joined,
    // a and b equal
    EqualAB,
}

// A row of the table: the class by which the widths must fit, and whether the kind uses r, a, b, s and k.
#[derive(Clone, Copy)]
struct Row(Class, bool, bool, bool, bool, bool);

// A row for each kind, in the order of the kinds. As a constant it would be built anew at each use.
static ROWS: [Row; 14] = [
    Row(Class::EqualRA, true, true, false, false, false), // Copy
    Row(Class::EqualRA, true, true, false, false, false), // Not
    Row(Class::EqualRAB, true, true, true, false, false), // And
    Row(Class::EqualRAB, true, true, true, false, false), // Or
    Row(Class::EqualRAB, true, true, true, false, false), // Xor
    Row(Class::EqualRAB, true, true, true, false, false), // Add
    Row(Class::Chosen, true, true, true, true, false), // Ite
    Row(Class::Part, true, true, false, false, true), // Slice
    Row(Class::Joined, true, true, true, false, false), // Join
    Row(Class::EqualRA, true, true, false, false, true), // Shl
    Row(Class::EqualRA, true, true, false, false, true), // Shr
    Row(Class::EqualAB, false, true, true, false, false), // Ule
    Row(Class::EqualAB, false, true, true, false, false), // Ult
    Row(Class::EqualAB, false, true, true, false, false), // Ne
];

impl Kind {
    // The class by which the widths must fit.
    pub fn class(self) -> Class
        ensures { class_named result ≡ class (kind_named self) }
    {
        ROWS[self as usize].0
    }

    // Whether the kind uses a place.
    pub fn uses(self, place: Place) -> bool
        ensures { result ≡ uses (kind_named self) (place_named place) }
    {
        let row = ROWS[self as usize];
        match place {
            Place::R => row.1,
            Place::A => row.2,
            Place::B => row.3,
            Place::S => row.4,
        }
    }

    // Whether it uses k.
    pub fn uses_k(self) -> bool
        ensures { result ≡ uses_k (kind_named self) }
    {
        ROWS[self as usize].5
    }
}
