ghost use Rattle.std.specs.Prelude.{◌≡◌, Some};
ghost use Rattle.order.specs.Extremes.{Greatest};
ghost use Rattle.values.specs.Times.{named, timestamp, null, before, version};
ghost use Rattle.values.specs.Words.{timestamp_words};

use order::greatest;
use std::fmt;

// When a transaction took place: the second, and for equal seconds the transaction's number.
// It is also the version of what that transaction wrote; the null one stands for no transaction.
#[derive(Clone, Copy, Debug, Default, PartialEq, Eq, PartialOrd, Ord)]
pub struct Timestamp {
    second: u32,
    transaction: u32,
}

impl Timestamp {
    pub fn new(second: u32, transaction: u32) -> Timestamp
        ensures { result ≡ timestamp second transaction }
    {
        Timestamp {
            second,
            transaction,
        }
    }

    // The default one, before every other timestamp.
    pub fn null() -> Timestamp
        ensures { result ≡ null }
    {
        Timestamp::default()
    }

    pub fn second(self) -> u32
        ensures { result ≡ self.second }
    {
        self.second
    }

    // The number of the transaction that it names, 0 for the null one.
    pub fn transaction(self) -> u32
        ensures { result ≡ self.transaction }
    {
        self.transaction
    }

    // The derived order, under the name that it has among timestamps.
    pub fn is_before(self, other: Timestamp) -> bool
        ensures { result ≡ before self other }
    {
        self < other
    }

    // Transactions are numbered from 1 to 32.
    pub fn names_transaction(self) -> bool
        ensures { result ≡ named self }
    {
        (1..=32).contains(&self.transaction)
    }

    // The null one, or one that names a transaction.
    pub fn is_version(self) -> bool
        ensures { result ≡ version self }
    {
        self == Timestamp::null() || self.names_transaction()
    }
}

impl fmt::Display for Timestamp {
    ghost output = { λ timestamp. Some (timestamp_words timestamp) };

    fn fmt<W: fmt::Write>(&self, f: &mut fmt::Formatter<W>) -> fmt::Result {
        write!(f, "{}.{}", self.second, self.transaction)
    }
}

// The latest of the timestamps; none for an empty list.
// A function of its own, since it says the order of timestamps and not that of any type.
pub fn latest(timestamps: &[Timestamp]) -> Option<Timestamp>
    ensures { Greatest before timestamps.now result }
{
    greatest(timestamps)
}
