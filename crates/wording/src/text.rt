ghost use Rattle.std.specs.Prelude.{Some};
ghost use Rattle.layout.specs.Values.{given, part_given};
ghost use Rattle.frame.specs.Messages.{value};
ghost use Rattle.wording.specs.Wording.{listed_output, tail_text, text, refusal_text};

use frame::message::Message;
use frame::rows::PlainMessage;
use layout::fields::{ContentFields, Fields};
use std::fmt;
use values::refusal::Refusal;

// What is said of a thing in one line.
#[derive(Clone, Copy)]
pub struct Line<T>(pub T);

// Rows with a space between each two.
#[derive(Clone, Copy)]
struct Listed<'a, T>(&'a [T]);

impl<T: fmt::Display> fmt::Display for Listed<'_, T> {
    ghost output = { λ list. listed_output T.output list.0.now };

    fn fmt<W: fmt::Write>(&self, f: &mut fmt::Formatter<W>) -> fmt::Result {
        if let [first, rest @ ..] = self.0 {
            write!(f, "{first}")?;
            for row in rest {
                write!(f, " {row}")?;
            }
        }
        Ok(())
    }
}

// What follows the numbers that every frame has.
#[derive(Clone, Copy)]
struct Tail<'a>(Option<ContentFields<'a>>);

impl fmt::Display for Tail<'_> {
    ghost output = { λ tail. Some (tail_text (part_given tail.0)) };

    fn fmt<W: fmt::Write>(&self, f: &mut fmt::Formatter<W>) -> fmt::Result {
        let Some(content) = self.0 else {
            return Ok(());
        };
        let reads = Listed(content.reads);
        let writes = Listed(content.writes);
        write!(
            f,
            " second={} reads=[{reads}] writes=[{writes}]",
            content.second
        )
    }
}

// A frame's kind and fields.
impl fmt::Display for Line<Fields<'_>> {
    ghost output = { λ line. Some (text (given line.0)) };

    fn fmt<W: fmt::Write>(&self, f: &mut fmt::Formatter<W>) -> fmt::Result {
        let header = &self.0.header;
        let flag = self.0.flag();
        let tail = Tail(self.0.content);
        write!(
            f,
            "{} filing={} sender={} view={} code={}",
            header.kind, header.transaction, header.sender, header.view, header.code,
        )?;
        write!(
            f,
            " accepted={} accepted_view={} content={flag}{tail}",
            header.accepted, header.accepted_view,
        )
    }
}

// A message's kind and fields.
impl fmt::Display for Line<Message<'_>> {
    ghost output = { λ line. Some (text (value line.0)) };

    fn fmt<W: fmt::Write>(&self, f: &mut fmt::Formatter<W>) -> fmt::Result {
        let plain = PlainMessage::from(&self.0);
        write!(f, "{}", Line(plain.fields()))
    }
}

// A refusal's number, and its value where it has one.
impl fmt::Display for Line<Refusal> {
    ghost output = { λ line. Some (refusal_text line.0) };

    fn fmt<W: fmt::Write>(&self, f: &mut fmt::Formatter<W>) -> fmt::Result {
        write!(f, "refused {}", self.0)
    }
}
