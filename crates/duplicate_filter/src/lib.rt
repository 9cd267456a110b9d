// A link over another that swallows repeats: a frame equal to one of the last 8 that it handed out.
#![tactic(auto)]

ghost use Rattle.std.specs.Prelude.{◌≡◌, [], ◌∷◌, ◌++◌, map, IfOk};
ghost use Rattle.link.specs.Packets.{frame_of};
ghost use Rattle.duplicate_filter.specs.Repeats.{last_eight};
ghost use Rattle.duplicate_filter.specs.Means.{recent_of, filter_waiting, FilterPuts, FilterTakes};
ghost use Rattle.duplicate_filter.specs.IsLink.{after_take};

pub mod filter;
pub mod laws;

use circular_buffer::HeapCircularBuffer;
use filter::{DuplicateFilter, REMEMBERED};
use link::packet::{LONGEST, Packet};
use link::{Link, check_room};
use std::alloc::{AllocError, Global};
use values::refusal::Refusal;

impl<L: Drop> DuplicateFilter<L> {
    // A filter that has handed out nothing yet, with memory for all that it will hold. Where there is none, the link is let go.
    pub fn new(heap: Global, inner: L) -> Result<DuplicateFilter<L>, AllocError>
        ensures { IfOk result (λ l. (l.inner ≡ inner) × (recent_of l ≡ [])) }
    {
        let recent = HeapCircularBuffer::with_capacity(heap, REMEMBERED)?;
        Ok(DuplicateFilter { inner, recent })
    }
}

impl<L: Link> Link for DuplicateFilter<L> {
    ghost waiting = { filter_waiting L.Link };

    ghost puts = { FilterPuts L.Link };

    ghost takes = { FilterTakes L.Link };

    ghost adds = { λ l l' a b p. L.Link.adds l.inner l'.inner a b p.0 };

    ghost hands = { λ l l' a o t. after_take (recent_of l) (recent_of l') a o t.0 (L.Link.hands l.inner l'.inner a t.0 t.1) t.2 };

    fn put(&mut self, to: u32, frame: &[u8]) {
        self.inner.put(to, frame);
    }

    // The inner link fills a buffer of the filter's own, so that a frame that is swallowed leaves the caller's as it was.
    fn take(&mut self, to: u32, buf: &mut [u8]) -> Result<Option<usize>, Refusal> {
        check_room(buf)?;
        let mut own = [0; LONGEST];
        let Some(n) = self.inner.take(to, &mut own)? else {
            return Ok(None);
        };
        let packet = Packet::new(to, &own[..n]).unwrap();
        if self.recent.iter().any(|other| *other == packet) {
            return Ok(None);
        }
        let _oldest = self.recent.push_back(packet);
        Ok(Some(packet.fill(buf)))
    }
}
