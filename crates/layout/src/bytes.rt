// Writing a content's bytes.

ghost use Rattle.std.specs.Prelude.{◌≡◌, ◌+◌, ◌*◌, ◌≤◌, length};
ghost use Rattle.bounded.specs.Lists.{Held};
ghost use Rattle.layout.specs.Numbers.{width, laid};
ghost use Rattle.layout.specs.Puts.{ContentBytes};

use crate::fields::ContentFields;
use crate::row::Row;
use bounded::Bounded;
use content::rows::{Read, Write};

// The bytes of the rows, one after another; none if there are more than N.
pub fn rows_bytes<T: Row, const N: usize>(rows: &[T]) -> Option<Bounded<u8, N>>
    ensures { Held N (laid T.Row.layout rows.now) result }
{
    let mut bytes = Bounded::empty();
    for row in rows {
        bytes.extend(row.bytes().as_slice()).ok()?;
    }
    Some(bytes)
}

// The bytes of a content from its second on; none if it has more than four rows of a kind, as 36 or 32 bytes hold no more.
pub fn content_bytes(content: &ContentFields<'_>) -> Option<Bounded<u8, 74>>
    ensures { ContentBytes content.now result }
{
    let ContentFields {
        second,
        reads,
        writes,
    } = *content;
    let read_bytes = rows_bytes::<Read, 36>(reads)?;
    let write_bytes = rows_bytes::<Write, 32>(writes)?;
    let mut bytes = Bounded::empty();
    bytes.extend(&second.to_be_bytes()).unwrap();
    bytes
        .extend(&[reads.len() as u8, writes.len() as u8])
        .unwrap();
    bytes.extend(read_bytes.as_slice()).unwrap();
    bytes.extend(write_bytes.as_slice()).unwrap();
    Some(bytes)
}
