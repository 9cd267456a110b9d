ghost use Rattle.std.specs.Prelude.{◌≤◌, vec_len, vec_capacity};
ghost use Rattle.fifo.specs.declared.queue.TheConstants.{MOST};

use link::packet::Packet;

// How many frames wait at most.
pub(crate) const MOST: usize = 64;

// The frames that wait, the oldest first; the yard's line. The memory for all is there from the start, so that a put cannot fail.
// A plain Vec: a type of our own would repeat its methods; the kit's ArrayVec would need a default packet, and leave `new` nothing to allocate.
#[derive(Drop)]
pub struct Fifo {
    pub(crate) frames: Vec<Packet>,
    ghost size: { vec_len frames ≤ MOST },
    ghost reserved: { MOST ≤ vec_capacity frames },
}
