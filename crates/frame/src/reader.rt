// Reading a frame.

ghost use Rattle.std.specs.Prelude.{◌≡◌, ℕ, ◌+◌, ◌*◌, ◌≤◌, ◌++◌, List, length, drop, Some, slice_index};
ghost use Rattle.field.specs.Layouts.{Checked, Checking};
ghost use Rattle.layout.specs.Values.{flag, size};
ghost use Rattle.layout.specs.Format.{header_fields, part_fields};
ghost use Rattle.layout.specs.Frames.{header_in, content_in, part_in, mark_fields, ending};
ghost use Rattle.frame.specs.Messages.{value, content_of, Ruled, PartsIn, PartsOf, Reads, Yields, OneFrame, parts};

use crate::message::{Message, Parts};
use bounded::Bounded;
use content::rows::{Read, Write};
use field::{Field, check};
use layout::fields::ContentFields;
use layout::format::{Header, count_fields, header_fields};
use layout::row::{byte_at, check_content, number_at, rows_in, tail_at};
use values::decision::{Outcome, Proposal, Vote};
use values::refusal::Refusal;

// The mark and the version; what follows them is handed on.
fn read_mark(bytes: &[u8]) -> Result<&[u8], Refusal>
    ensures { Checking (length bytes.now) (mark_fields bytes.now) (λ rest. rest.now ≡ drop 5 bytes.now) result }
{
    match bytes {
        [0x54, 0x4B, 0x41, 0, 1, rest @ ..] => Ok(rest),
        [0x54, 0x4B, 0x41, ..] => Err(Refusal::NotAFrame { place: 3 }),
        _ => Err(Refusal::NotAFrame { place: 0 }),
    }
}

// The header, which stands behind the mark and the version.
fn header_of(rest: &[u8]) -> Header
    ensures { (b : List ℕ) → rest.now ≡ drop 5 b → result ≡ header_in b }
{
    Header {
        kind: char::from(byte_at(rest, 0)),
        transaction: u32::from(byte_at(rest, 1)),
        sender: u32::from(byte_at(rest, 2)),
        view: u32::from(byte_at(rest, 3)),
        code: u32::from(byte_at(rest, 4)),
        accepted: u32::from(byte_at(rest, 5)),
        accepted_view: u32::from(byte_at(rest, 6)),
    }
}

// How many reads and writes a content has.
fn counts_at(bytes: &[u8]) -> (usize, usize)
    ensures reads { result.0 ≡ slice_index bytes.now 17 }
    ensures writes { result.1 ≡ slice_index bytes.now 18 }
{
    (
        usize::from(byte_at(bytes, 17)),
        usize::from(byte_at(bytes, 18)),
    )
}

// Checks the content, of which the flag says that it follows.
fn check_content_at(bytes: &[u8]) -> Result<(), Refusal>
    ensures { Checked (length bytes.now) (part_fields (slice_index bytes.now 6) (Some (content_in bytes.now))) result }
{
    let (reads, writes) = counts_at(bytes);
    check(&count_fields(reads, writes), bytes.len())?;
    let rows = tail_at(bytes, 19);
    let read_rows: Bounded<Read, 4> = rows_in(rows, reads);
    let write_rows: Bounded<Write, 4> = rows_in(tail_at(rows, 9 * reads), writes);
    let content = ContentFields {
        second: number_at(bytes, 13),
        reads: read_rows.as_slice(),
        writes: write_rows.as_slice(),
    };
    check_content(&content, u32::from(byte_at(bytes, 6)), bytes.len())
}

// The parts of the bytes that hold a content.
fn parts_at(bytes: &[u8]) -> Parts<'_>
    requires few_reads { slice_index bytes.now 17 ≤ 4 }
    requires few_writes { slice_index bytes.now 18 ≤ 4 }
    requires whole { 19 + 9 * slice_index bytes.now 17 + 8 * slice_index bytes.now 18 ≤ length bytes.now }
    ensures { PartsIn bytes.now result }
{
    let (reads, writes) = counts_at(bytes);
    let middle = 19 + 9 * reads;
    Parts {
        second: number_at(bytes, 13),
        reads: &bytes[19..middle],
        writes: &bytes[middle..middle + 8 * writes],
    }
}

// The header, whose rules hold of it and of the content's flag behind it.
fn read_header(bytes: &[u8]) -> Result<Header, Refusal>
    ensures { let b = bytes.now in
        Checking (length b) (mark_fields b ++ header_fields (header_in b) (slice_index b 12)) (λ h. h ≡ header_in b) result }
{
    let rest = read_mark(bytes)?;
    let header = header_of(rest);
    let flag = u32::from(byte_at(bytes, 12));
    check(&header_fields(&header, flag), bytes.len())?;
    Ok(header)
}

// The content, which is there exactly if the flag says so.
fn read_content(bytes: &[u8]) -> Result<Option<Parts<'_>>, Refusal>
    ensures { Checking (length bytes.now) (part_fields (slice_index bytes.now 6) (part_in bytes.now)) (λ o. PartsOf bytes.now o) result }
{
    if byte_at(bytes, 12) != 1 {
        return Ok(None);
    }
    check_content_at(bytes)?;
    Ok(Some(parts_at(bytes)))
}

// Nothing follows the end of a frame with this content.
#[tactic(auto, using(crate::proofs::Read::size_held))]
fn end_field(length: usize, content: Option<Parts<'_>>) -> Field
    ensures { result ≡ ending length (size (content_of content.entry)) }
{
    let end = content.map_or(13, |parts| 19 + parts.reads.len() + parts.writes.len());
    Field {
        place: end,
        width: 0,
        good: length <= end,
    }
}

// The message of a header that obeys its rules with this content.
#[tactic(auto, using(crate::proofs::Numbers::outcome_known, crate::proofs::Numbers::vote_known))]
fn message_of<'a>(header: &Header, content: Option<Parts<'a>>) -> Message<'a>
    requires { Ruled header.now (flag (content_of content)) }
    ensures means { (value result).header ≡ header.now }
    ensures holds { parts result ≡ content.entry }
{
    let Header {
        kind,
        transaction,
        sender,
        view,
        code,
        accepted,
        accepted_view,
    } = *header;
    match (kind, content) {
        ('P', Some(content)) => Message::Prepare {
            transaction,
            sender,
            content,
        },
        ('V', _) => Message::Voted {
            transaction,
            sender,
            vote: Vote::try_from(code).unwrap(),
        },
        ('A', content) => Message::Accept {
            transaction,
            sender,
            view,
            outcome: Outcome::try_from(code).unwrap(),
            content,
        },
        ('B', _) => Message::Accepted {
            transaction,
            sender,
            view,
        },
        ('D', content) => Message::Decide {
            transaction,
            sender,
            outcome: Outcome::try_from(code).unwrap(),
            content,
        },
        ('C', _) => Message::ChangeView {
            transaction,
            sender,
            view,
        },
        (_, content) => Message::Report {
            transaction,
            sender,
            view,
            vote: Vote::from_number(code).unwrap(),
            accepted: Outcome::try_from(accepted).ok().map(|outcome| Proposal {
                view: accepted_view,
                outcome,
            }),
            content,
        },
    }
}

// The message whose frame the bytes are, or the first fault.
fn read(bytes: &[u8]) -> Result<Message<'_>, Refusal>
    ensures { Reads bytes.now result }
{
    let header = read_header(bytes)?;
    let content = read_content(bytes)?;
    check(&[end_field(bytes.len(), content)], bytes.len())?;
    Ok(message_of(&header, content))
}

// Reads bytes as a frame: the message holds parts of these very bytes.
pub fn read_frame(bytes: &[u8]) -> Result<Message<'_>, Refusal>
    ensures reads { Reads bytes.now result }
    ensures yields { Yields bytes.now result }
    ensures laws { OneFrame }
{
    read(bytes)
}
