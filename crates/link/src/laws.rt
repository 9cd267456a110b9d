ghost use Rattle.link.specs.Laws.{LinkLaws};
ghost use Rattle.link.specs.Packets.{PacketLaws};

use crate::Link;
use crate::packet::Packet;

// How much room a packet's frame asks for, and which packets are equal. It does nothing: its contract is the laws.
pub fn packet_stands()
    ensures { PacketLaws ⟦<Packet as PartialEq>⟧.eq }
{}

// What layers above may rest on, whatever the link is made of. It does nothing: its contract is the laws.
pub fn link_stands<L: Link>(link: &L)
    ensures { LinkLaws L.Link.waiting L.Link.puts L.Link.takes }
{}
