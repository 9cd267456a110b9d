ghost use Rattle.std.specs.Prelude.{◌≤◌, length};
ghost use Rattle.link.specs.declared.packet.TheConstants.{LONGEST};

use bounded::Bounded;

// How many bytes the longest frame has.
pub const LONGEST: usize = 128;

// A frame in memory of its own: an address and the bytes.
#[derive(Clone, Copy, PartialEq, Eq)]
pub struct Packet {
    pub(crate) to: u32,
    pub(crate) bytes: Bounded<u8, LONGEST>,
    ghost ok: { length bytes ≤ LONGEST },
}
