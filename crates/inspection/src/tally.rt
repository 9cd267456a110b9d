ghost use Rattle.std.specs.Prelude.{◌≡◌, Some};
ghost use Rattle.inspection.specs.Counting.{none, counted, summary, Counts};

use std::fmt;

// How many lines were read, and how many of them were no frame. Both stop at the top of u64.
#[derive(Clone, Copy, PartialEq, Eq, Debug, Default)]
pub struct Tally {
    frames: u64,
    refused: u64,
}

impl Tally {
    pub fn new() -> Tally
        ensures { result ≡ none }
    {
        Tally::default()
    }

    pub fn count(&mut self, refused: bool)
        ensures after { self.new ≡ counted self.old refused }
        ensures law { Counts }
    {
        self.frames = self.frames.saturating_add(1);
        self.refused = self.refused.saturating_add(u64::from(refused));
    }
}

impl fmt::Display for Tally {
    ghost output = { λ tally. Some (summary tally) };

    fn fmt<W: fmt::Write>(&self, f: &mut fmt::Formatter<W>) -> fmt::Result {
        write!(f, "{} frames, {} refused", self.frames, self.refused)
    }
}
