ghost use Rattle.std.specs.Prelude.{◌≡◌, Some};
ghost use Rattle.content.specs.Rules.{readable};
ghost use Rattle.content.specs.Words.{read_words, write_words};

use std::fmt;
use values::timestamp::Timestamp;

// What a transaction read: the key, and the version that it saw there.
#[derive(Clone, Copy)]
pub struct Read {
    pub key: u32,
    pub version: Timestamp,
}

// What a transaction writes.
#[derive(Clone, Copy)]
pub struct Write {
    pub key: u32,
    pub value: u32,
}

impl Read {
    // A transaction with this timestamp can have made it: it saw a version from before.
    pub fn is_readable(&self, timestamp: Timestamp) -> bool
        ensures { result ≡ readable timestamp self.now }
    {
        self.version.is_version() && self.version.is_before(timestamp)
    }
}

impl fmt::Display for Read {
    ghost output = { λ read. Some (read_words read) };

    fn fmt<W: fmt::Write>(&self, f: &mut fmt::Formatter<W>) -> fmt::Result {
        write!(f, "{}@{}", self.key, self.version)
    }
}

impl fmt::Display for Write {
    ghost output = { λ write. Some (write_words write) };

    fn fmt<W: fmt::Write>(&self, f: &mut fmt::Formatter<W>) -> fmt::Result {
        write!(f, "{}={}", self.key, self.value)
    }
}
