ghost use Rattle.round_robin.specs.Laws.{RoundRobinLaws};

// How frames are handed out in turn, and which are replaced. It does nothing: its contract is the laws.
pub fn round_robin_stands()
    ensures { RoundRobinLaws }
{}
