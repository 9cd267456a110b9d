ghost use Rattle.std.specs.Prelude.{◌≡◌, ℕ, ◌==◌, length};
ghost use Rattle.std.specs.List.{list_any};
ghost use Rattle.content.specs.Rules.{differ, keys_of, no_read, no_write};

use crate::rows::{Read, Write};
use bounded::Blank;
use values::timestamp::Timestamp;

// What a read and a write have in common: a key, and a blank that stands for a row that is not there.
pub trait Keyed: Blank {
    ghost key: { Self → ℕ };

    fn key(&self) -> u32
        ensures { result ≡ key self.now };
}

impl Blank for Read {
    ghost blank = { no_read };

    fn blank() -> Read {
        Read {
            key: 0,
            version: Timestamp::null(),
        }
    }
}

impl Blank for Write {
    ghost blank = { no_write };

    fn blank() -> Write {
        Write { key: 0, value: 0 }
    }
}

impl Keyed for Read {
    ghost key = { λ r. r.key };

    fn key(&self) -> u32 {
        self.key
    }
}

impl Keyed for Write {
    ghost key = { λ w. w.key };

    fn key(&self) -> u32 {
        let Write { key, .. } = *self;
        key
    }
}

// One of the rows has the key.
pub fn has_key<T: Keyed>(rows: &[T], key: u32) -> bool
    ensures { result ≡ list_any (λ row. T.Keyed.key row == key) rows.now }
{
    rows.iter().any(|row| row.key() == key)
}

// The keys differ: the first that an earlier row has ends the search.
pub(crate) fn keys_differ<T: Keyed>(rows: &[T]) -> bool
    ensures { result ≡ differ (keys_of T.Keyed.key T.Blank.blank rows.now) (length rows.now) }
{
    for (i, row) in rows.iter().enumerate() {
        if has_key(&rows[..i], row.key()) {
            return false;
        }
    }
    true
}
