// Writing the frame of a message.

ghost use Rattle.frame.specs.Messages.{value};
ghost use Rattle.encode.specs.Writes.{Writes};

use crate::writer::write_fields;
use frame::message::Message;
use frame::rows::PlainMessage;
use values::refusal::Refusal;

// Writes the frame of the message from the place on, and answers its length.
pub fn write_message(buf: &mut [u8], at: usize, message: &Message<'_>) -> Result<usize, Refusal>
    ensures { Writes (value message.now) at buf.old result buf.new }
{
    let plain = PlainMessage::from(message);
    write_fields(buf, at, &plain.fields())
}
