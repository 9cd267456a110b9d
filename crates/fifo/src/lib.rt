// A link as a queue: a take hands out the oldest frame for the address, once.
#![tactic(auto)]

ghost use Rattle.std.specs.Prelude.{◌≡◌, ◌==◌, [], position, IfOk};
ghost use Rattle.link.specs.Packets.{frame_of};
ghost use Rattle.fifo.specs.Means.{fifo_waiting, FifoPuts, FifoTakes};
ghost use Rattle.fifo.specs.IsLink.{after_put, after_take};

pub mod laws;
pub mod queue;

use link::packet::Packet;
use link::{Link, check_room};
use queue::{Fifo, MOST};
use std::alloc::{AllocError, Global};
use values::refusal::Refusal;

// Where the first packet for the address is.
fn first_for(frames: &[Packet], to: u32) -> Option<usize>
    ensures { result ≡ position (λ p. (frame_of p).0 == to) frames.now }
{
    frames.iter().position(|packet| packet.is_for(to))
}

impl Fifo {
    // An empty queue, with memory for all that it will hold.
    pub fn new(heap: Global) -> Result<Fifo, AllocError>
        ensures { IfOk result (λ l. fifo_waiting l ≡ []) }
    {
        Ok(Fifo {
            frames: Vec::with_capacity(heap, MOST)?,
        })
    }
}

impl Link for Fifo {
    ghost waiting = { fifo_waiting };

    ghost puts = { FifoPuts };

    ghost takes = { FifoTakes };

    ghost adds = { λ l l' a b p. after_put (fifo_waiting l) (fifo_waiting l') a b p };

    ghost hands = { λ l l' a o t. after_take (fifo_waiting l) (fifo_waiting l') a o t };

    fn put(&mut self, to: u32, frame: &[u8]) {
        let Some(packet) = Packet::new(to, frame) else {
            return;
        };
        if self.frames.len() < MOST {
            self.frames.push_reserved(packet);
        }
    }

    fn take(&mut self, to: u32, buf: &mut [u8]) -> Result<Option<usize>, Refusal> {
        check_room(buf)?;
        let Some(i) = first_for(&self.frames, to) else {
            return Ok(None);
        };
        let packet = self.frames.remove(i);
        Ok(Some(packet.fill(buf)))
    }
}
