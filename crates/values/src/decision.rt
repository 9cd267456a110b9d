ghost use Rattle.std.specs.Prelude.{◌≡◌, Some};
ghost use Rattle.order.specs.Extremes.{Greatest};
ghost use Rattle.values.specs.Numbers.{vote_number, outcome_number, Decodes};
ghost use Rattle.values.specs.Proposals.{lower};
ghost use Rattle.values.specs.Words.{unknown_words};

use order::greatest;
use std::error::Error;
use std::fmt;

// A replica's vote on a transaction.
#[derive(Clone, Copy, Debug, PartialEq, Eq)]
pub enum Vote {
    No,
    Yes,
}

// What becomes of a transaction; an abort comes first in the order of proposals of one view.
#[derive(Clone, Copy, Debug, PartialEq, Eq, PartialOrd, Ord)]
pub enum Outcome {
    Abort,
    Commit,
}

// An outcome that a coordinator proposed in a view.
#[derive(Clone, Copy, Debug, PartialEq, Eq, PartialOrd, Ord)]
pub struct Proposal {
    pub view: u32,
    pub outcome: Outcome,
}

// A number that has no meaning where it stands.
#[derive(Clone, Copy, Debug, PartialEq, Eq)]
pub struct UnknownNumber(pub u32);

impl fmt::Display for UnknownNumber {
    ghost output = { λ e. Some (unknown_words e) };

    fn fmt<W: fmt::Write>(&self, f: &mut fmt::Formatter<W>) -> fmt::Result {
        write!(f, "unknown number {}", self.0)
    }
}

impl Error for UnknownNumber {}

// Votes and outcomes have a table each: a trait for both would be longer than the tables.
impl From<Vote> for u32 {
    ghost from_gives = { λ vote number. number ≡ vote_number (Some vote) };

    fn from(vote: Vote) -> u32 {
        match vote {
            Vote::No => 1,
            Vote::Yes => 2,
        }
    }
}

impl TryFrom<u32> for Vote {
    type Error = UnknownNumber;

    ghost try_from_gives = { Decodes (λ vote. vote_number (Some vote)) };

    fn try_from(number: u32) -> Result<Vote, UnknownNumber> {
        match number {
            1 => Ok(Vote::No),
            2 => Ok(Vote::Yes),
            _ => Err(UnknownNumber(number)),
        }
    }
}

// The two methods are no impls of From and TryFrom, since neither Option nor u32 is a type of this crate.
impl Vote {
    // The number of a vote, or of no vote, in a message.
    pub fn number(vote: Option<Vote>) -> u32
        ensures { result ≡ vote_number vote }
    {
        vote.map_or(0, u32::from)
    }

    // The vote with that number, which may be no vote.
    pub fn from_number(number: u32) -> Result<Option<Vote>, UnknownNumber>
        ensures { Decodes vote_number number result }
    {
        match number {
            0 => Ok(None),
            _ => Vote::try_from(number).map(Some),
        }
    }
}

impl From<Outcome> for u32 {
    ghost from_gives = { λ outcome number. number ≡ outcome_number outcome };

    fn from(outcome: Outcome) -> u32 {
        match outcome {
            Outcome::Abort => 1,
            Outcome::Commit => 2,
        }
    }
}

impl TryFrom<u32> for Outcome {
    type Error = UnknownNumber;

    ghost try_from_gives = { Decodes outcome_number };

    fn try_from(number: u32) -> Result<Outcome, UnknownNumber> {
        match number {
            1 => Ok(Outcome::Abort),
            2 => Ok(Outcome::Commit),
            _ => Err(UnknownNumber(number)),
        }
    }
}

// The proposal of the highest view, in one view a commit; none for an empty list.
// A function of its own, since it says the order of proposals and not that of any type.
pub fn greatest_proposal(proposals: &[Proposal]) -> Option<Proposal>
    ensures { Greatest lower proposals.now result }
{
    greatest(proposals)
}
