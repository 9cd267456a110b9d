ghost use Rattle.std.specs.Prelude.{ℕ, ◌≤◌};

use values::refusal::Refusal;

// How many rows a store has room for.
#[derive(Clone, Copy)]
pub struct Capacity {
    rows: usize,
    ghost bounds: { (1 ≤ rows) × (rows ≤ 64) },
}

impl TryFrom<usize> for Capacity {
    ghost use Rattle.std.specs.Prelude.{◌≡◌};
    ghost use Rattle.store.specs.declared.capacity.Capacity.{Capacity};
    ghost use Rattle.store.specs.Table.{Admitted};

    type Error = Refusal;

    ghost try_from_gives = { Admitted (λ (c : Capacity) n. c.rows ≡ n) };

    fn try_from(rows: usize) -> Result<Capacity, Refusal> {
        match rows {
            1..=64 => Ok(Capacity { rows }),
            _ => Err(Refusal::BadCapacity),
        }
    }
}

impl Capacity {
    ghost use Rattle.std.specs.Prelude.{◌≡◌};

    pub fn rows(self) -> usize
        ensures { result ≡ self.rows }
    {
        self.rows
    }
}
