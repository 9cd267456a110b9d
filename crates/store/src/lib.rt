// The rows that a replica keeps, one for each key.
#![tactic(auto)]

ghost use Rattle.std.specs.Prelude.{◌≡◌, ℕ, ◌+◌};
ghost use Rattle.either.specs.Either.{either};
ghost use Rattle.either.specs.declared.Either.TheVariants.{Left, Right};
ghost use Rattle.store.specs.Table.{Table, Put, Counted, has, row_of, null_row, row_at};

pub mod capacity;
pub mod laws;

pub use either::Either;
use either::for_both;
use values::refusal::Refusal;
use values::timestamp::Timestamp;

// The value of a key, the version that wrote it, and the latest transaction that read it.
#[derive(Clone, Copy, Debug, Default, PartialEq, Eq)]
pub struct Row {
    pub value: Option<u32>,
    pub version: Timestamp,
    pub reader: Timestamp,
}

impl Row {
    // The row of a key that nothing was stored for.
    pub fn null() -> Row
        ensures { result ≡ null_row }
    {
        Row::default()
    }
}

// A row with its key.
#[derive(Clone, Copy, Default)]
pub struct Entry {
    pub key: u32,
    pub row: Row,
}

impl Entry {
    // The row, if it is the key's.
    pub fn row_for(self, key: u32) -> Option<Row>
        ensures { result ≡ row_at self key }
    {
        (self.key == key).then_some(self.row)
    }
}

// All memory is there from the start: no method allocates.
pub trait Store {
    ghost table: { Self → Table };

    // The row of the key, if it is held.
    fn find(&self, key: u32) -> Option<Row>
        ensures { result ≡ (table self.now).look key };

    // The null row for a key that is not held.
    fn get(&self, key: u32) -> Row
        ensures { result ≡ row_of (table self.now) key }
    {
        self.find(key).unwrap_or_default()
    }

    fn holds(&self, key: u32) -> bool
        ensures { result ≡ has (table self.now) key }
    {
        self.find(key).is_some()
    }

    fn put(&mut self, key: u32, row: Row) -> Result<(), Refusal>
        ensures { Put (table self.old) key row result (table self.new) };

    // How many more keys it has room for.
    fn free(&self) -> usize
        ensures { result + (table self.now).held ≡ (table self.now).most };

    ghost counted: { (s : Self) → Counted (table s) };
}

// A store of one of two kinds.
impl<L: Store, R: Store> Store for Either<L, R> {
    ghost table = { either L.table R.table };

    ghost counted = { elim [ Left s ↦ L.counted s | Right s ↦ R.counted s ] };

    fn find(&self, key: u32) -> Option<Row> {
        for_both!(self, s => s.find(key))
    }

    fn put(&mut self, key: u32, row: Row) -> Result<(), Refusal> {
        for_both!(self, s => s.put(key, row))
    }

    fn free(&self) -> usize {
        for_both!(self, s => s.free())
    }
}
