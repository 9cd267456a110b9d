ghost use Rattle.std.specs.Prelude.{◌≡◌};
ghost use Rattle.layout.specs.Values.{flag, part_given};

use crate::format::Header;
use content::rows::{Read, Write};

// The fields of a frame, as plain numbers of any size.
#[derive(Clone, Copy)]
pub struct Fields<'a> {
    pub header: Header,
    pub content: Option<ContentFields<'a>>,
}

// The fields of a content.
// A second, reads and writes stand in other types too, as bytes or as rows, lent or owned: each has rules and makers of its own.
#[derive(Clone, Copy)]
pub struct ContentFields<'a> {
    pub second: u32,
    pub reads: &'a [Read],
    pub writes: &'a [Write],
}

impl<'a> Fields<'a> {
    // 1 where a content follows, 0 where none does.
    pub fn flag(&self) -> u32
        ensures { result ≡ flag (part_given self.now.content) }
    {
        u32::from(self.content.is_some())
    }
}
