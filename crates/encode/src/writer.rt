// Writing the frame of bare fields.

ghost use Rattle.std.specs.Prelude.{◌≡◌, ◌+◌, length, take, nat_le};
ghost use Rattle.field.specs.Layouts.{Passes, Checked, Checking};
ghost use Rattle.layout.specs.Values.{given};
ghost use Rattle.layout.specs.Format.{value_fields};
ghost use Rattle.layout.specs.Frames.{frame};
ghost use Rattle.encode.specs.declared.writer.TheConstants.{LONGEST};
ghost use Rattle.encode.specs.Once.{passes_once};
ghost use Rattle.encode.specs.Writes.{Writes};

use field::check;
use layout::bytes::content_bytes;
use layout::fields::Fields;
use layout::format::header_fields;
use layout::row::check_content;
use values::refusal::Refusal;

// The length of the longest frame.
const LONGEST: usize = 87;

// Fields that obey their rules, so that there is a frame of them.
#[derive(Clone, Copy)]
struct LawfulFields<'a> {
    fields: Fields<'a>,
    ghost lawful: { Passes LONGEST (value_fields (given fields)) } by { passes_once LONGEST (value_fields (given fields)) },
}

// Checks every number in the order of the frame.
fn check_fields(fields: &Fields<'_>) -> Result<(), Refusal>
    ensures { Checked LONGEST (value_fields (given fields.now)) result }
{
    check(&header_fields(&fields.header, fields.flag()), LONGEST)?;
    match &fields.content {
        Some(content) => check_content(content, fields.header.transaction, LONGEST),
        None => Ok(()),
    }
}

impl<'a> LawfulFields<'a> {
    fn new(fields: Fields<'a>) -> Result<LawfulFields<'a>, Refusal>
        ensures { Checking LONGEST (value_fields (given fields.entry)) (λ l. l.fields ≡ fields.entry) result }
    {
        check_fields(&fields)?;
        Ok(LawfulFields { fields })
    }

    // The length of the frame.
    fn length(&self) -> usize
        ensures { result ≡ length (frame (given self.now.fields)) }
    {
        match self.fields.content {
            Some(content) => 19 + 9 * content.reads.len() + 8 * content.writes.len(),
            None => 13,
        }
    }

    // The bytes before the content; the rules keep each number below 256.
    fn head(&self) -> [u8; 13]
        ensures { result ≡ take 13 (frame (given self.now.fields)) }
    {
        let header = &self.fields.header;
        [
            0x54,
            0x4B,
            0x41,
            0,
            1,
            header.kind as u8,
            header.transaction as u8,
            header.sender as u8,
            header.view as u8,
            header.code as u8,
            header.accepted as u8,
            header.accepted_view as u8,
            self.fields.flag() as u8,
        ]
    }

    // Fills a part of just the frame's length.
    fn fill(&self, part: &mut [u8])
        requires { length part.old ≡ length (frame (given self.now.fields)) }
        ensures { part.new ≡ frame (given self.now.fields) }
    {
        part[..13].copy_from_slice(&self.head());
        if let Some(content) = &self.fields.content {
            let bytes = content_bytes(content).unwrap();
            part[13..].copy_from_slice(bytes.as_slice());
        }
    }
}

// A buffer of this length has n bytes from the place on.
fn has_room(length: usize, at: usize, n: usize) -> bool
    ensures { result ≡ nat_le (at + n) length }
{
    at <= length && n <= length - at
}

// Writes the frame of the fields from the place on, and answers its length.
// Buffer and place are two, since a caller has the buffer whole.
pub fn write_fields(buf: &mut [u8], at: usize, fields: &Fields<'_>) -> Result<usize, Refusal>
    ensures { Writes (given fields.now) at buf.old result buf.new }
{
    let lawful = LawfulFields::new(*fields)?;
    let n = lawful.length();
    if !has_room(buf.len(), at, n) {
        return Err(Refusal::ShortBuffer);
    }
    lawful.fill(&mut buf[at..at + n]);
    Ok(n)
}
