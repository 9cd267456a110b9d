ghost use Rattle.hashed.specs.Laws.{HashedLaws};

// How the table places its rows. It does nothing: its contract is the laws.
pub fn hashed_stands()
    ensures { HashedLaws }
{}
