// The entries of the six tables. A default entry is blank: all zero, a group without parent.
ghost use Rattle.std.specs.Prelude.{◌≡◌};
ghost use Rattle.rules.specs.Contents.{RuleGiven, parent_of};

// The most entries of each table.
pub const MOST_GROUPS: usize = 64;

pub const MOST_SEATS: usize = 256;

pub const MOST_RESERVES: usize = 64;

pub const MOST_TRAINEES: usize = 256;

pub const MOST_CONTRACTS: usize = 2048;

pub const MOST_BARS: usize = 128;

// The parent byte of a group without parent: a dredger.
pub const NO_PARENT: u8 = 255;

// The parent that a byte gives.
pub fn parent_of(byte: u8) -> Option<u8>
    ensures { result ≡ parent_of byte }
{
    (byte != NO_PARENT).then_some(byte)
}

// `name` is the place of the name's first byte in the deck. `dredger` is the group without parent that is reached by following parents.
#[derive(Clone, Copy, PartialEq, Eq, Debug, Default)]
pub struct Group {
    pub parent: Option<u8>,
    pub capacity: u16,
    pub name: usize,
    pub dredger: u8,
}

// By which rule a contract is the best one for a seat of its dredger: by rank; by lower lot, then lower number; by lower term, then rank.
#[derive(Clone, Copy, PartialEq, Eq, Debug, Default)]
pub enum Rule {
    #[default]
    Rank,
    Lot,
    Term,
}

// A byte that stands for no rule.
#[derive(Clone, Copy, PartialEq, Eq, Debug)]
pub struct UnknownRule(pub u8);

impl TryFrom<u8> for Rule {
    type Error = UnknownRule;

    ghost try_from_gives = { RuleGiven };

    fn try_from(byte: u8) -> Result<Rule, UnknownRule> {
        match byte {
            0 => Ok(Rule::Rank),
            1 => Ok(Rule::Lot),
            2 => Ok(Rule::Term),
            _ => Err(UnknownRule(byte)),
        }
    }
}

// The rule is what `Rule::try_from` gives of a byte: a table that is lent may have any byte there.
#[derive(Clone, Copy, PartialEq, Eq, Debug)]
pub struct Seat {
    pub dredger: u8,
    pub rule: Result<Rule, UnknownRule>,
}

// Written out: Rust gives no Default to a Result.
impl Default for Seat {
    ghost use Rattle.rules.specs.Contents.{zero_seat};

    ghost is_default = { λ seat. seat ≡ zero_seat };

    fn default() -> Seat {
        Seat {
            dredger: 0,
            rule: Ok(Rule::default()),
        }
    }
}

#[derive(Clone, Copy, PartialEq, Eq, Debug, Default)]
pub struct Reservation {
    pub dredger: u8,
    pub seats: u16,
}

#[derive(Clone, Copy, PartialEq, Eq, Debug, Default)]
pub struct Trainee {
    pub lot: u16,
    pub flag: bool,
    pub name: usize,
}

// One wish of one trainee for one group, with that trainee's lot and flag.
#[derive(Clone, Copy, PartialEq, Eq, Debug, Default)]
pub struct Contract {
    pub trainee: u16,
    pub group: u8,
    pub dredger: u8,
    pub points: u16,
    pub term: u8,
    pub lot: u16,
    pub flag: bool,
}

#[derive(Clone, Copy, PartialEq, Eq, Debug, Default)]
pub struct Barring {
    pub trainee: u16,
    pub dredger: u8,
}

// The six tables, for reading.
#[derive(Clone, Copy, PartialEq, Eq, Debug, Default)]
pub struct Tables<'a> {
    pub groups: &'a [Group],
    pub seats: &'a [Seat],
    pub reserves: &'a [Reservation],
    pub trainees: &'a [Trainee],
    pub contracts: &'a [Contract],
    pub bars: &'a [Barring],
}
