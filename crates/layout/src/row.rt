// Reads and writes as the rows of a frame: what they share is written once.

ghost use Rattle.std.specs.Prelude.{◌≡◌, ℕ, ◌+◌, ◌*◌, ◌<◌, ◌≤◌, ◌++◌, ◌∷◌, min, List, length, take, drop, Some, slice_index, refl};
ghost use Rattle.std.proofs.Common.{arith};
ghost use Rattle.field.specs.Layouts.{Checked};
ghost use Rattle.layout.specs.Numbers.{number, Layout, width, reading, writing, rows_in};
ghost use Rattle.layout.specs.Values.{part_given};
ghost use Rattle.layout.specs.Format.{row_fields, table_fields, part_fields};

use crate::fields::ContentFields;
use crate::format::count_fields;
use bounded::Bounded;
use content::keyed::{Keyed, has_key};
use content::rows::{Read, Write};
use field::{Field, check};
use values::refusal::Refusal;
use values::timestamp::Timestamp;

// The byte at the place, 0 past the end. Bytes and place are two parameters here and below: a struct would hold the slice alone.
pub fn byte_at(bytes: &[u8], place: usize) -> u8
    ensures { result ≡ slice_index bytes.now place }
{
    bytes.get(place).copied().unwrap_or(0)
}

// The number in the four bytes from the place on, of which those past the end count as 0. With a place of eight bits no sum is too large.
pub fn number_at(bytes: &[u8], place: u8) -> u32
    ensures { result ≡ number bytes.now place }
{
    let place = usize::from(place);
    u32::from_be_bytes([
        byte_at(bytes, place),
        byte_at(bytes, place + 1),
        byte_at(bytes, place + 2),
        byte_at(bytes, place + 3),
    ])
}

// The bytes from the place on, none past the end.
pub fn tail_at(bytes: &[u8], place: usize) -> &[u8]
    ensures { result.now ≡ drop place bytes.now }
{
    bytes.get(place..).unwrap_or(&[])
}

// A row: a key, and a second field with a rule of its own.
pub trait Row: Keyed {
    ghost layout: { Layout Self };

    ghost REST: { ℕ };

    // The bytes of the second field.
    const REST: usize;

    // The row at the front of the bytes.
    fn read(bytes: &[u8]) -> Self
        ensures { result ≡ layout.row bytes.now };

    fn bytes(&self) -> Bounded<u8, 9>
        ensures { result ≡ layout.bytes self.now };

    // The second field obeys its rule in a transaction with this timestamp.
    fn is_lawful(&self, timestamp: Timestamp) -> bool
        ensures { result ≡ layout.lawful timestamp self.now };

    ghost long: { (x : Self) → length (layout.bytes x) ≡ width layout };

    ghost rest: { REST ≡ layout.rest };

    ghost few: { REST ≤ 5 };

    // The layout's key and blank are those of the type.
    ghost keyed: { (x : Self) → Self.Keyed.key x ≡ layout.key x };

    ghost blanks: { Self.Blank.blank ≡ layout.blank };
}

impl Row for Read {
    ghost layout = { reading };

    ghost REST = { 5 };

    const REST: usize = 5;

    ghost rest = { refl };

    ghost few = { Prim.omega arith };

    ghost long = { λ _. refl };

    ghost keyed = { λ _. refl };

    ghost blanks = { refl };

    fn read(bytes: &[u8]) -> Self {
        Read {
            key: number_at(bytes, 0),
            version: Timestamp::new(number_at(bytes, 4), u32::from(byte_at(bytes, 8))),
        }
    }

    fn bytes(&self) -> Bounded<u8, 9> {
        let [k0, k1, k2, k3] = self.key.to_be_bytes();
        let [s0, s1, s2, s3] = self.version.second().to_be_bytes();
        let transaction = (self.version.transaction() % 256) as u8;
        Bounded::new(&[k0, k1, k2, k3, s0, s1, s2, s3, transaction]).unwrap()
    }

    fn is_lawful(&self, timestamp: Timestamp) -> bool {
        self.is_readable(timestamp)
    }
}

impl Row for Write {
    ghost layout = { writing };

    ghost REST = { 4 };

    const REST: usize = 4;

    ghost rest = { refl };

    ghost few = { Prim.omega arith };

    ghost long = { λ _. refl };

    ghost keyed = { λ _. refl };

    ghost blanks = { refl };

    fn read(bytes: &[u8]) -> Self {
        Write {
            key: number_at(bytes, 0),
            value: number_at(bytes, 4),
        }
    }

    fn bytes(&self) -> Bounded<u8, 9> {
        let [k0, k1, k2, k3] = self.key.to_be_bytes();
        let [v0, v1, v2, v3] = self.value.to_be_bytes();
        Bounded::new(&[k0, k1, k2, k3, v0, v1, v2, v3]).unwrap()
    }

    fn is_lawful(&self, _timestamp: Timestamp) -> bool {
        true
    }
}

// The first rows of the bytes, at most four.
pub fn rows_in<T: Row>(bytes: &[u8], count: usize) -> Bounded<T, 4>
    ensures { result ≡ rows_in T.Row.layout (min count 4) bytes.now }
{
    let mut rows = Bounded::empty();
    let mut rest = bytes;
    for _ in 0..count.min(4) {
        rows.push(T::read(rest)).unwrap();
        rest = tail_at(rest, 4 + T::REST);
    }
    rows
}

// The fields of a row behind the earlier ones, of which the first begins at base, whatever rows follow.
fn row_fields<T: Row>(earlier: &[T], row: &T, base: usize, timestamp: Timestamp) -> [Field; 2]
    requires few { length earlier.now < 4 }
    requires near { base ≤ 55 }
    ensures { (rest : List T) → result ≡ row_fields T.Row.layout timestamp base (earlier.now ++ row.now ∷ rest) (length earlier.now) }
{
    let place = base + (4 + T::REST) * earlier.len();
    [
        Field {
            place,
            width: 4,
            good: !has_key(earlier, row.key()),
        },
        Field {
            place: place + 4,
            width: T::REST,
            good: row.is_lawful(timestamp),
        },
    ]
}

// Checks at most four rows that begin at base.
fn check_rows<T: Row>(
    rows: &[T],
    base: usize,
    timestamp: Timestamp,
    size: usize,
) -> Result<(), Refusal>
    requires few { length rows.now ≤ 4 }
    requires near { base ≤ 55 }
    ensures { Checked size (table_fields T.Row.layout timestamp base rows.now) result }
{
    for (i, row) in rows.iter().enumerate() {
        check(&row_fields(&rows[..i], row, base, timestamp), size)?;
    }
    Ok(())
}

// Checks the content of a transaction from its second on, in a frame of which `size` bytes are there.
pub fn check_content(
    content: &ContentFields<'_>,
    transaction: u32,
    size: usize,
) -> Result<(), Refusal>
    ensures { Checked size (part_fields transaction (part_given (Some content.now))) result }
{
    let ContentFields {
        second,
        reads,
        writes,
    } = *content;
    let timestamp = Timestamp::new(second, transaction);
    check(&count_fields(reads.len(), writes.len()), size)?;
    check_rows(reads, 19, timestamp, size)?;
    check_rows(writes, 19 + 9 * reads.len(), timestamp, size)
}
