// The numbers of documents 01 and 02 that have a meaning of their own (specs/Codes).
ghost use Rattle.std.specs.Prelude.{◌≡◌};
ghost use Rattle.commands.specs.KindNumbers.{kind_number, kind_of};
ghost use Rattle.commands.specs.RefusalNumbers.{number_of};

// The highest command in use.
pub const LAST: u32 = 37;

// Kinds of answers that show no row: `Answer` has a case for each, and these are its numbers.
pub const NUMBER: u32 = 3;

pub const WHOLE: u32 = 4;

pub const EXACT: u32 = 5;

// Kinds of rows, each by its number.
#[derive(Clone, Copy, PartialEq, Eq)]
pub enum Kind {
    Empty = 0,
    Point = 1,
    Direction = 2,
    Plane = 6,
}

impl From<Kind> for u32 {
    ghost from_gives = { λ kind n. n ≡ kind_number kind };

    fn from(kind: Kind) -> u32 {
        kind as u32
    }
}

impl TryFrom<u32> for Kind {
    // The number, which is none of a kind.
    type Error = u32;

    ghost try_from_gives = { λ n kind. kind ≡ kind_of n };

    #[tactic(auto, unfolding(crate::specs::KindNumbers::kind_of))]
    fn try_from(n: u32) -> Result<Kind, u32> {
        match n {
            0 => Ok(Kind::Empty),
            1 => Ok(Kind::Point),
            2 => Ok(Kind::Direction),
            6 => Ok(Kind::Plane),
            _ => Err(n),
        }
    }
}

// Refusals, each by its number.
#[derive(Clone, Copy, PartialEq, Eq)]
pub enum Refusal {
    IllFormed = 1,
    UnknownCommand = 2,
    RowOutside = 3,
    UnfitSource = 4,
    ValueOutside = 5,
    ResultInfinite = 6,
    DirectionMissing = 7,
    AllReflected = 8,
    LentTooShort = 9,
    HistoryEmpty = 11,
    LineParallel = 12,
}

impl From<Refusal> for u32 {
    ghost from_gives = { λ refusal n. n ≡ number_of refusal };

    fn from(refusal: Refusal) -> u32 {
        refusal as u32
    }
}
