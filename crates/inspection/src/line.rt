ghost use Rattle.std.specs.Prelude.{◌≡◌, string_bytes, MatchResult, Some};
ghost use Rattle.std.specs.Option.{option_copied};
ghost use Rattle.inspection.specs.Saying.{fault_words, Understood, Told, OneAnswer};
ghost use Rattle.inspection.specs.declared.line.Fault.TheVariants.{Refused};

use crate::digits::from_hex;
use crate::tally::Tally;
use frame::message::Message;
use frame::reader::read_frame;
use std::alloc::{AllocError, Global};
use std::fmt;
use values::refusal::Refusal;
use wording::text::Line;

// Why a line is refused.
#[derive(Clone, Copy, Debug)]
enum Fault {
    NotHex,
    Refused(Refusal),
}

impl From<Refusal> for Fault {
    ghost from_gives = { λ refusal fault. fault ≡ Refused refusal };

    fn from(refusal: Refusal) -> Fault {
        Fault::Refused(refusal)
    }
}

impl fmt::Display for Fault {
    ghost output = { λ fault. Some (fault_words fault) };

    fn fmt<W: fmt::Write>(&self, f: &mut fmt::Formatter<W>) -> fmt::Result {
        match self {
            Fault::NotHex => write!(f, "not hex"),
            Fault::Refused(refusal) => write!(f, "{}", Line(*refusal)),
        }
    }
}

// The message whose frame a line's bytes are.
fn message_in(bytes: Option<&[u8]>) -> Result<Message<'_>, Fault>
    ensures { Understood (option_copied bytes.entry) result }
{
    Ok(read_frame(bytes.ok_or(Fault::NotHex)?)?)
}

// What is said of one line of hex, which the tally counts; for want of memory it does not.
pub fn line_text(heap: Global, line: &[u8], tally: &mut Tally) -> Result<String, AllocError>
    ensures told { MatchResult result (λ s. Told line.now (string_bytes s) tally.old tally.new) (λ _. tally.new ≡ tally.old) }
    ensures law { OneAnswer }
{
    let bytes = from_hex(heap, line)?;
    let (text, refused) = match message_in(bytes.as_deref()) {
        Ok(message) => (Line(message).to_string(heap)?, false),
        Err(fault) => (fault.to_string(heap)?, true),
    };
    tally.count(refused);
    Ok(text)
}
