// The answer to a call: its results, or the refusal.
ghost use Rattle.std.specs.Prelude.{◌≡◌, Err};
ghost use Rattle.probe.specs.Shows.{Gives, number_of, one, zeros_of};

use crate::results::Results;

pub(crate) type Answer = Result<Results, Refusal>;

// Why a call is refused: its line is malformed, no function has its number, or its index is above 2.
#[derive(Clone, Copy, PartialEq, Eq)]
pub(crate) enum Refusal {
    Malformed = 1,
    Unknown = 2,
    Index = 10,
}

impl From<Refusal> for u32 {
    ghost from_gives = { λ e n. n ≡ number_of e };

    fn from(refusal: Refusal) -> u32 {
        refusal as u32
    }
}

impl Refusal {
    // What the line shows behind the number: a zero in place of the result that an index asks for.
    pub(crate) fn results(self) -> Results
        ensures count { result.count ≡ zeros_of self }
        ensures words { result.words ≡ one 0 }
    {
        match self {
            Refusal::Malformed | Refusal::Unknown => Results::of([]),
            Refusal::Index => Results::of([0]),
        }
    }
}
