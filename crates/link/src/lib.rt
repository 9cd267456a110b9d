// The links that carry frames between replicas: a frame is put in for an address, and taken out for that address.
#![tactic(auto)]

ghost use Rattle.std.specs.Prelude.{◌≡◌, ℕ, ◌<◌, ◌≤◌, List, length, Option, ◌==◌, MatchResult};
ghost use Rattle.values.specs.declared.refusal.Refusal.TheVariants.{ShortBuffer};
ghost use Rattle.link.specs.Frames.{Frame, AfterPut, AfterTake, Taken};
ghost use Rattle.link.specs.Packets.{frame_of, Packed, Filled};

pub mod laws;
pub mod packet;

use bounded::Bounded;
use packet::{LONGEST, Packet};
use values::refusal::Refusal;

// A link may lose, repeat and delay frames, but it makes up none. All memory is there from the start: no method allocates.
pub trait Link {
    ghost waiting: { Self → List Frame };

    ghost puts: { Self → ℕ → List ℕ → Self → Type 0 };

    ghost takes: { Self → ℕ → Option (List ℕ) → Self → Type 0 };

    // A frame of over LONGEST bytes is lost. Address and frame are two, since a caller has the bytes alone.
    fn put(&mut self, to: u32, frame: &[u8])
        ensures { puts self.old to frame.now self.new };

    // How many bytes of the buffer the frame taken fills, if any.
    fn take(&mut self, to: u32, buf: &mut [u8]) -> Result<Option<usize>, Refusal>
        ensures { Taken takes self.old to buf.old result buf.new self.new };

    ghost adds: { (l l' : Self) (a : ℕ) (b : List ℕ) → puts l a b l' → AfterPut (waiting l) a b (waiting l') };

    ghost hands: { (l l' : Self) (a : ℕ) (o : Option (List ℕ)) → takes l a o l' → AfterTake (waiting l) a o (waiting l') };
}

// A take's buffer must have room for the longest frame, so that none is cut.
pub fn check_room(buf: &[u8]) -> Result<(), Refusal>
    ensures { MatchResult result
        (λ _. LONGEST ≤ length buf.now)
        (λ e. (length buf.now < LONGEST) × (e ≡ ShortBuffer)) }
{
    if buf.len() < LONGEST {
        return Err(Refusal::ShortBuffer);
    }
    Ok(())
}

impl Packet {
    // None exactly if the frame has over LONGEST bytes.
    pub fn new(to: u32, frame: &[u8]) -> Option<Packet>
        ensures { Packed to frame.now result }
    {
        let bytes = Bounded::new(frame)?;
        Some(Packet { to, bytes })
    }

    pub fn is_for(&self, to: u32) -> bool
        ensures { result ≡ ((frame_of self.now).0 == to) }
    {
        self.to == to
    }

    // Copies as much of the frame as the buffer has room for to its front, and answers how much.
    pub fn fill(&self, buf: &mut [u8]) -> usize
        ensures { Filled (frame_of self.now).1 buf.old result buf.new }
    {
        let bytes = self.bytes.as_slice();
        let n = bytes.len().min(buf.len());
        buf[..n].copy_from_slice(&bytes[..n]);
        n
    }
}
