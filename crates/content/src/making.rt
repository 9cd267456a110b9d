ghost use Rattle.std.specs.Prelude.{◌≡◌, length, Some};
ghost use Rattle.content.specs.Contents.{body, Made, ToldByBody};
ghost use Rattle.content.specs.Rules.{SoundTested, body_of, few, reads_before, sound};

use crate::content::Content;
use crate::keyed::keys_differ;
use crate::rows::{Read, Write};
use crate::stored::StoredContent;
use bounded::Bounded;
use values::timestamp::Timestamp;

fn all_readable(timestamp: Timestamp, reads: &[Read]) -> bool
    ensures { result ≡ reads_before timestamp reads.now (length reads.now) }
{
    for read in reads {
        if !read.is_readable(timestamp) {
            return false;
        }
    }
    true
}

// At most four rows of each kind, and one at least.
fn counts_fit(reads: usize, writes: usize) -> bool
    ensures { result ≡ few reads writes }
{
    reads <= 4 && writes <= 4 && 1 <= reads + writes
}

fn is_sound(timestamp: Timestamp, reads: &[Read], writes: &[Write]) -> bool
    ensures { result ≡ sound (body_of timestamp reads.now writes.now) }
{
    timestamp.names_transaction()
        && counts_fit(reads.len(), writes.len())
        && keys_differ(reads)
        && keys_differ(writes)
        && all_readable(timestamp, reads)
}

impl Content {
    // The content that says this, if it is sound.
    pub fn new(timestamp: Timestamp, reads: &[Read], writes: &[Write]) -> Option<Content>
        ensures made { Made (body_of timestamp reads.now writes.now) result }
        ensures again { (c : Content) → body c ≡ body_of timestamp reads.now writes.now → result ≡ Some c }
        ensures tested { SoundTested }
        ensures told { ToldByBody }
    {
        if !is_sound(timestamp, reads, writes) {
            return None;
        }
        let stored = StoredContent {
            timestamp,
            reads: Bounded::new(reads)?,
            writes: Bounded::new(writes)?,
        };
        Some(Content { stored })
    }

    pub fn timestamp(&self) -> Timestamp
        ensures { result ≡ (body self.now).timestamp }
    {
        self.stored.timestamp
    }

    pub fn reads(&self) -> &[Read]
        ensures { result.now ≡ (body self.now).reads }
    {
        self.stored.reads.as_slice()
    }

    pub fn writes(&self) -> &[Write]
        ensures { result.now ≡ (body self.now).writes }
    {
        self.stored.writes.as_slice()
    }
}
