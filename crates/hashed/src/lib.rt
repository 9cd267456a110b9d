// A store as a hashed table: a key's search begins at a place that the key gives, and goes on from place to place.
#![tactic(auto)]

ghost use Rattle.std.specs.Prelude.{◌≡◌, ℕ, ◌<◌};
ghost use Rattle.store.specs.Table.{Made};
ghost use Rattle.hashed.specs.Places.{home_of, place_of};
ghost use Rattle.hashed.specs.Means.{hashed_table};
ghost use Rattle.hashed.specs.Counts.{counts};

pub mod laws;
pub mod table;

use store::{Entry, Row, Store};
use table::Hashed;
use values::refusal::Refusal;

// The place where the search for the key begins: the upper seven bits of a product that each bit of the key changes.
fn home(key: u32) -> usize
    ensures { result ≡ home_of key }
{
    (key.wrapping_mul(2654435761) >> 25) as usize
}

// The place where the search for the key ends: that of the key, or else the first empty one.
// A loop that counts its steps: a chain with `map` and `find` makes a look two fifths longer.
fn place(slots: &[Option<Entry>; 128], key: u32) -> usize
    ensures within { result < 128 }
    ensures ends { result ≡ place_of slots.now key }
{
    let first = home(key);
    for steps in 0..128 {
        let p = (first + steps) % 128;
        if slots[p].is_none_or(|entry| entry.key == key) {
            return p;
        }
    }
    first
}

impl Hashed {
    // An empty table for 1 to 64 rows.
    pub fn new(capacity: usize) -> Result<Hashed, Refusal>
        ensures { Made hashed_table capacity result }
    {
        Ok(Hashed {
            slots: [None; 128],
            held: 0,
            capacity: capacity.try_into()?,
        })
    }
}

impl Store for Hashed {
    ghost table = { hashed_table };

    ghost counted = { counts };

    fn find(&self, key: u32) -> Option<Row> {
        let p = place(&self.slots, key);
        self.slots[p]?.row_for(key)
    }

    fn put(&mut self, key: u32, row: Row) -> Result<(), Refusal> {
        let p = place(&self.slots, key);
        let slot = self.slots[p];
        if slot.is_none() {
            if self.held == self.capacity.rows() {
                return Err(Refusal::StoreFull { key });
            }
            self.held += 1;
        }
        self.slots[p] = Some(Entry { key, row });
        Ok(())
    }

    // Here the count of the rows, in a tree the length of the list: nothing to share but the subtraction.
    fn free(&self) -> usize {
        self.capacity.rows() - self.held
    }
}
