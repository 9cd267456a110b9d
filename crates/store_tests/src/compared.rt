use std::alloc::{AllocError, Global};
use std::collections::BTreeMap;
use std::process::Abort;
use std::test::Fail;
use store::{Row, Store};
use values::refusal::Refusal;

// What a store is compared with: a map, with a capacity.
#[derive(Drop)]
struct Reference {
    rows: BTreeMap<u32, Row>,
    capacity: usize,
}

impl Reference {
    fn get(&self, key: u32) -> Row {
        self.rows.get(&key).copied().unwrap_or_default()
    }

    fn holds(&self, key: u32) -> bool {
        self.rows.contains_key(&key)
    }

    // The answer that a store owes, unless memory runs out.
    fn put(&mut self, key: u32, row: Row) -> Result<Result<(), Refusal>, AllocError> {
        if !self.holds(key) && self.free() == 0 {
            return Ok(Err(Refusal::StoreFull { key }));
        }
        self.rows.insert(key, row)?;
        Ok(Ok(()))
    }

    fn free(&self) -> usize {
        self.capacity.saturating_sub(self.rows.len())
    }
}

// A store beside what it is compared with.
#[derive(Drop)]
pub struct Compared<S> {
    pub store: S,
    reference: Reference,
}

impl<S: Store> Compared<S> {
    // Both empty, the store as `new` makes it.
    pub(crate) fn new<F: FnOnce(usize) -> Result<S, Refusal>>(
        alloc: Global,
        capacity: usize,
        new: F,
    ) -> Result<Compared<S>, Refusal>
        requires { F.IsAlwaysCallable new }
    {
        Ok(Compared {
            store: new(capacity)?,
            reference: Reference {
                rows: BTreeMap::new(alloc),
                capacity,
            },
        })
    }

    // The two say the same of the key.
    pub fn look(&self, rt: &impl Abort, key: u32) {
        assert_eq!(rt; self.store.get(key), self.reference.get(key));
        assert_eq!(rt; self.store.holds(key), self.reference.holds(key));
        assert_eq!(rt; self.store.free(), self.reference.free());
    }

    // A put into both gets the same answer, and leaves them alike.
    pub fn put(&mut self, rt: &impl Abort, key: u32, row: Row) -> Result<(), Fail> {
        assert_eq!(rt; self.store.put(key, row), self.reference.put(key, row)?);
        self.look(rt, key);
        Ok(())
    }
}
