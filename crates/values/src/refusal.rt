ghost use Rattle.std.specs.Prelude.{◌≡◌, Some};
ghost use Rattle.values.specs.Numbers.{refusal_number, refusal_value};
ghost use Rattle.values.specs.Words.{refusal_words};

use std::error::Error;
use std::fmt;

// Why a call is declined.
#[derive(Clone, Copy, Debug, PartialEq, Eq)]
pub enum Refusal {
    NoSuchReplica,
    NeverOpened,
    NoTransactionLeft,
    NotADraft,
    AlreadyRead,
    FifthKey,
    EmptyDraft,
    TimestampTooLow,
    NotPolling,
    TooFewVotes,
    NothingToTakeOver,
    AlreadyDecided,
    ViewTooHigh,
    NoSlot,
    StoreFull { key: u32 },
    NotAFrame { place: usize },
    BadCapacity,
    BadReplicaCount,
    ShortBuffer,
}

impl From<Refusal> for u8 {
    ghost from_gives = { λ refusal number. number ≡ refusal_number refusal };

    fn from(refusal: Refusal) -> u8 {
        match refusal {
            Refusal::NoSuchReplica => 1,
            Refusal::NeverOpened => 2,
            Refusal::NoTransactionLeft => 3,
            Refusal::NotADraft => 4,
            Refusal::AlreadyRead => 5,
            Refusal::FifthKey => 6,
            Refusal::EmptyDraft => 7,
            Refusal::TimestampTooLow => 8,
            Refusal::NotPolling => 9,
            Refusal::TooFewVotes => 10,
            Refusal::NothingToTakeOver => 11,
            Refusal::AlreadyDecided => 12,
            Refusal::ViewTooHigh => 13,
            Refusal::NoSlot => 14,
            Refusal::StoreFull { .. } => 15,
            Refusal::NotAFrame { .. } => 16,
            Refusal::BadCapacity => 17,
            Refusal::BadReplicaCount => 18,
            Refusal::ShortBuffer => 19,
        }
    }
}

impl Refusal {
    pub fn number(self) -> u8
        ensures { result ≡ refusal_number self }
    {
        u8::from(self)
    }

    // The key of a store that is full, or the place in bytes that are no frame.
    pub fn value(self) -> Option<usize>
        ensures { result ≡ refusal_value self }
    {
        match self {
            Refusal::StoreFull { key } => Some(key as usize),
            Refusal::NotAFrame { place } => Some(place),
            _ => None,
        }
    }
}

impl fmt::Display for Refusal {
    ghost output = { λ refusal. Some (refusal_words refusal) };

    fn fmt<W: fmt::Write>(&self, f: &mut fmt::Formatter<W>) -> fmt::Result {
        let number = self.number();
        match self.value() {
            None => write!(f, "{number}"),
            Some(value) => write!(f, "{number} at {value}"),
        }
    }
}

impl Error for Refusal {}
