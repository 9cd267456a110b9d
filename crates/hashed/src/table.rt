ghost use Rattle.std.specs.Prelude.{◌≡◌, ℕ, ◌≤◌};
ghost use Rattle.hashed.specs.Places.{Reached, taken};

use store::Entry;
use store::capacity::Capacity;

// At most `capacity` rows in 128 places, so that a search always meets an empty one.
#[derive(Drop)]
pub struct Hashed {
    pub(crate) slots: [Option<Entry>; 128],
    // How many places are taken: a table with holes has no length that would tell.
    pub(crate) held: usize,
    pub(crate) capacity: Capacity,
    ghost reached: { Reached slots },
    ghost counts: { held ≡ taken slots },
    ghost bound: { held ≤ capacity.rows },
}
