ghost use Rattle.std.specs.Prelude.{◌≡◌, ◌%◌, ◌≤◌, length};

use bounded::Bounded;

// A content in bytes, for a message to hold parts of: the second, at most four reads, at most four writes.
#[derive(Clone, Copy)]
pub struct EncodedContent {
    pub(crate) second: u32,
    pub(crate) reads: Bounded<u8, 36>,
    pub(crate) writes: Bounded<u8, 32>,
    ghost few_reads: { length reads ≤ 36 },
    ghost few_writes: { length writes ≤ 32 },
    ghost whole_reads: { length reads % 9 ≡ 0 },
    ghost whole_writes: { length writes % 8 ≡ 0 },
}
