ghost use Rattle.std.specs.Prelude.{◌≡◌, Some};
ghost use Rattle.content.specs.Storing.{stored, Restores, RestoresStored};

use crate::content::Content;
use crate::rows::{Read, Write};
use bounded::Bounded;
use values::timestamp::Timestamp;

// A content as plain numbers, which only a content fills.
#[derive(Clone, Copy)]
pub struct StoredContent {
    pub(crate) timestamp: Timestamp,
    pub(crate) reads: Bounded<Read, 4>,
    pub(crate) writes: Bounded<Write, 4>,
}

// The numbers are those of no content.
#[derive(Clone, Copy, Debug)]
pub struct Unsound;

impl From<&Content> for StoredContent {
    ghost from_gives = { λ c s. s ≡ stored c.now };

    fn from(content: &Content) -> StoredContent {
        content.stored
    }
}

// The content that the numbers are those of; they are checked again.
impl TryFrom<&StoredContent> for Content {
    type Error = Unsound;

    ghost try_from_gives = { λ s r. Restores s.now r };

    fn try_from(stored: &StoredContent) -> Result<Content, Unsound> {
        let reads = stored.reads.as_slice();
        let writes = stored.writes.as_slice();
        Content::new(stored.timestamp, reads, writes).ok_or(Unsound)
    }
}

// What was stored comes back.
pub fn store_and_restore(content: Content) -> Option<Content>
    ensures same { result ≡ Some content }
    ensures law { RestoresStored }
{
    Content::try_from(&StoredContent::from(&content)).ok()
}
