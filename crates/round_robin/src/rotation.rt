ghost use Rattle.std.specs.Prelude.{◌<◌, ◌≤◌, vec_len, vec_capacity};
ghost use Rattle.round_robin.specs.declared.rotation.TheConstants.{PLACES};

use link::packet::Packet;

// How many frames there are at most, each at its place.
pub(crate) const PLACES: usize = 16;

// The frames by place, the place of the oldest, and the place where the next round begins; the yard's pouch. The memory for all is there from the start, so that a put cannot fail.
// A plain Vec: a type of our own would repeat its methods; the kit's ArrayVec would need a default packet, and leave `new` nothing to allocate.
#[derive(Drop)]
pub struct RoundRobin {
    pub(crate) frames: Vec<Packet>,
    pub(crate) oldest: usize,
    pub(crate) next: usize,
    ghost size: { vec_len frames ≤ PLACES },
    ghost reserved: { PLACES ≤ vec_capacity frames },
    ghost within: { (oldest < PLACES) × (next < PLACES) },
}
