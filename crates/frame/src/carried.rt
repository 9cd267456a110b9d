// Messages around a content of our own.

ghost use Rattle.content.specs.Contents.{body};
ghost use Rattle.frame.specs.Carried.{part_said, Encodes, PartsFrom};

use crate::encoded::EncodedContent;
use crate::message::Parts;
use content::content::Content;
use layout::bytes::rows_bytes;

impl From<&Content> for EncodedContent {
    ghost from_gives = { λ content encoded. Encodes encoded (part_said (body content.now)) };

    #[tactic(auto, using(crate::proofs::Encoding::encoding))]
    fn from(content: &Content) -> EncodedContent {
        EncodedContent {
            second: content.timestamp().second(),
            reads: rows_bytes(content.reads()).unwrap(),
            writes: rows_bytes(content.writes()).unwrap(),
        }
    }
}

impl EncodedContent {
    // The parts that a message with this content holds.
    pub fn parts(&self) -> Parts<'_>
        ensures { PartsFrom self.now result }
    {
        Parts {
            second: self.second,
            reads: self.reads.as_slice(),
            writes: self.writes.as_slice(),
        }
    }
}
