ghost use Rattle.std.specs.Prelude.{◌≡◌, ◌≤◌, length};
ghost use Rattle.duplicate_filter.specs.declared.filter.TheConstants.{REMEMBERED};

use circular_buffer::HeapCircularBuffer;
use link::packet::Packet;

// How many of the frames that were handed out are remembered.
pub(crate) const REMEMBERED: usize = 8;

// A link, and the last frames that were handed out, the oldest first; the yard's repeat filter.
#[derive(Drop)]
pub struct DuplicateFilter<L> {
    pub(crate) inner: L,
    pub(crate) recent: HeapCircularBuffer<Packet>,
    ghost capacity: { recent.capacity ≡ REMEMBERED },
    ghost size: { length recent.items ≤ REMEMBERED },
}
