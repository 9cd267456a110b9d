// A link that hands out its frames in turn and keeps them, so that each comes again and again until a newer one replaces it.
#![tactic(auto)]

ghost use Rattle.std.specs.Prelude.{◌≡◌, ◌+◌, ◌%◌, ◌<◌, length, map, IsTrue, IfOk, IfSome};
ghost use Rattle.link.specs.Packets.{frame_of};
ghost use Rattle.round_robin.specs.Places.{new_places, is_to, round};
ghost use Rattle.round_robin.specs.Means.{places_of, round_waiting, RoundPuts, RoundTakes};
ghost use Rattle.round_robin.specs.IsLink.{after_put, after_take};

pub mod laws;
pub mod rotation;

use link::packet::Packet;
use link::{Link, check_room};
use rotation::{PLACES, RoundRobin};
use std::alloc::{AllocError, Global};
use values::refusal::Refusal;

// Whether the place has a frame for the address.
fn is_at(frames: &[Packet], place: usize, to: u32) -> bool
    ensures answer { result ≡ is_to (map frame_of frames.now) to place }
    ensures within { IsTrue result → place < length frames.now }
{
    frames.get(place).is_some_and(|packet| packet.is_for(to))
}

// The first place for the address, in a round that begins at the given one.
fn turn(frames: &[Packet], to: u32, from: usize) -> Option<usize>
    ensures answer { result ≡ round (map frame_of frames.now) to from }
    ensures within { IfSome result (λ p. p < length frames.now) }
{
    (from..PLACES)
        .chain(0..from)
        .find(|place| is_at(frames, *place, to))
}

// The place after this one, round.
fn place_after(place: usize) -> usize
    requires { place < PLACES }
    ensures { result ≡ (place + 1) % PLACES }
{
    (place + 1) % PLACES
}

impl RoundRobin {
    // No frame yet, with memory for all that there will be.
    pub fn new(heap: Global) -> Result<RoundRobin, AllocError>
        ensures { IfOk result (λ l. places_of l ≡ new_places) }
    {
        Ok(RoundRobin {
            frames: Vec::with_capacity(heap, PLACES)?,
            oldest: 0,
            next: 0,
        })
    }
}

impl Link for RoundRobin {
    ghost waiting = { round_waiting };

    ghost puts = { RoundPuts };

    ghost takes = { RoundTakes };

    ghost adds = { λ l l' a b p. after_put (places_of l) (places_of l') a b p };

    ghost hands = { λ l l' a o t. after_take (places_of l) (places_of l') a o t };

    fn put(&mut self, to: u32, frame: &[u8]) {
        let Some(packet) = Packet::new(to, frame) else {
            return;
        };
        if self.frames.len() < PLACES {
            self.frames.push_reserved(packet);
        } else {
            self.frames[self.oldest] = packet;
            self.oldest = place_after(self.oldest);
        }
    }

    fn take(&mut self, to: u32, buf: &mut [u8]) -> Result<Option<usize>, Refusal> {
        check_room(buf)?;
        let Some(p) = turn(&self.frames, to, self.next) else {
            return Ok(None);
        };
        let packet = self.frames[p];
        self.next = place_after(p);
        Ok(Some(packet.fill(buf)))
    }
}
