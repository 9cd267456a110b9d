ghost use Rattle.fifo.specs.Laws.{FifoLaws};

// How the queue hands out its frames. It does nothing: its contract is the laws.
pub fn fifo_stands()
    ensures { FifoLaws }
{}
