// The rows that the parts of a frame hold.

ghost use Rattle.std.specs.Prelude.{◌≡◌, Some};
ghost use Rattle.layout.specs.Values.{given, part_given};
ghost use Rattle.frame.specs.Messages.{part_of, value};
ghost use Rattle.frame.specs.Rows.{part_held, plain};

use crate::message::{Message, Parts};
use bounded::Bounded;
use content::rows::{Read, Write};
use layout::fields::{ContentFields, Fields};
use layout::format::Header;
use layout::row::rows_in;

// A content as a frame holds it, in memory of its own.
#[derive(Clone, Copy)]
pub struct ContentRows {
    second: u32,
    reads: Bounded<Read, 4>,
    writes: Bounded<Write, 4>,
}

impl<'a> Parts<'a> {
    // The rows that lie in the bytes.
    pub fn rows(&self) -> ContentRows
        ensures { part_held result ≡ part_of self.now }
    {
        ContentRows {
            second: self.second,
            reads: rows_in(self.reads, self.reads.len() / 9),
            writes: rows_in(self.writes, self.writes.len() / 8),
        }
    }
}

impl ContentRows {
    // The same as the fields of a content.
    pub fn fields(&self) -> ContentFields<'_>
        ensures { part_given (Some result) ≡ Some (part_held self.now) }
    {
        ContentFields {
            second: self.second,
            reads: self.reads.as_slice(),
            writes: self.writes.as_slice(),
        }
    }
}

// A message as plain numbers in memory of its own.
#[derive(Clone, Copy)]
pub struct PlainMessage {
    header: Header,
    rows: Option<ContentRows>,
}

impl From<&Message<'_>> for PlainMessage {
    ghost from_gives = { λ message numbers. plain numbers ≡ value message.now };

    fn from(message: &Message<'_>) -> PlainMessage {
        PlainMessage {
            header: message.header(),
            rows: message.parts().map(|parts| parts.rows()),
        }
    }
}

impl PlainMessage {
    pub fn fields(&self) -> Fields<'_>
        ensures { given result ≡ plain self.now }
    {
        Fields {
            header: self.header,
            content: self.rows.as_ref().map(|rows| rows.fields()),
        }
    }
}
