// What the calls answer. specs/Answers.antt defines which answer it is, specs/Numbers.antt document 01's number and
// values for each.
ghost use Rattle.std.specs.Prelude.{◌≡◌};
ghost use Rattle.answers.specs.Numbers.{refusal_number};

use geometry::TooMany;

// Why a call refuses.
#[derive(Clone, Copy, Debug, PartialEq, Eq)]
pub enum Refusal {
    // the memory has no length that an index has
    WrongLength,
    // the work area is not as long as the index
    WorkLength,
    // a cell off the grid, or a window that is none
    Invalid,
    // the memory reads as no sound tree
    NoSoundTree,
    // an entry of the cell is held already
    Held,
    // no entry of the cell is held
    NotHeld,
    // a list over 256, or a polygon over 16, in step 2
    OverLimit,
    TooManyNodes,
    // the list has no room for all matches
    ShortList { matches: u32 },
    // there is no nearest entry
    NothingHeld,
}

impl Refusal {
    // Document 01's number of it.
    pub fn number(self) -> u32
        ensures { result ≡ refusal_number self }
    {
        match self {
            Refusal::WrongLength => 1,
            Refusal::WorkLength => 2,
            Refusal::Invalid => 3,
            Refusal::NoSoundTree => 4,
            Refusal::Held => 5,
            Refusal::NotHeld => 6,
            Refusal::OverLimit => 7,
            Refusal::TooManyNodes => 8,
            Refusal::ShortList { matches: _ } => 9,
            Refusal::NothingHeld => 10,
        }
    }
}

// A list over its limit is refusal 7.
impl From<TooMany> for Refusal {
    ghost use Rattle.answers.specs.declared.answer.Refusal.TheVariants.{OverLimit};

    ghost from_gives = { λ _ e. e ≡ OverLimit };

    fn from(_: TooMany) -> Refusal {
        Refusal::OverLimit
    }
}

// An accepted insertion: the entries held after the call, and how many cells siblings removed.
#[derive(Clone, Copy, Debug, PartialEq, Eq)]
pub struct Inserted {
    pub held: u32,
    pub removed: u64,
}

// A point query: the tag of the cell's entry, if one is held, and the nodes entered.
#[derive(Clone, Copy, Debug, PartialEq, Eq)]
pub struct PointFound {
    pub tag: Option<u32>,
    pub visits: u32,
}

// The numbers that an entry takes in the result list of a window query.
pub const LIST_WIDTH: usize = 3;

// A window query: how many entries are in the window, and the nodes entered.
#[derive(Clone, Copy, Debug, PartialEq, Eq)]
pub struct WindowFound {
    pub matches: u32,
    pub visits: u32,
}

// A nearest query: the nearest entry, its squared distance, the nodes entered.
#[derive(Clone, Copy, Debug, PartialEq, Eq)]
pub struct NearestFound {
    pub x: u32,
    pub y: u32,
    pub tag: u32,
    pub distance: u64,
    pub visits: u32,
}

// An emptiness query: whether no entry is in the window, and the nodes entered, up to the first entry in it. No Option:
// the nodes are told in both cases.
#[derive(Clone, Copy, Debug, PartialEq, Eq)]
pub struct EmptyFound {
    pub empty: bool,
    pub visits: u32,
}
