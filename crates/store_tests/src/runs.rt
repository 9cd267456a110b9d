use crate::compared::Compared;
use hashed::table::Hashed;
use std::alloc::Global;
use std::process::Abort;
use std::test::Fail;
use store::{Either, Row, Store};
use tree::arena::Tree;
use values::refusal::Refusal;
use values::timestamp::Timestamp;

// The next of a row of numbers that look like chance; the upper bits are the better ones.
fn next(n: u32) -> u32 {
    n.wrapping_mul(1664525).wrapping_add(1013904223)
}

// A row of its own for each number; every fifth has no value.
pub fn row(n: u32) -> Row {
    Row {
        value: (n % 5 != 0).then_some(n),
        version: Timestamp::new(n / 2, n % 33),
        reader: Timestamp::new(n, n % 32),
    }
}

// Puts and looks in turn at keys that `key_of` gives, and at the end a look at 80 of them.
fn run<S: Store + Drop, K: Fn(u32) -> u32>(
    rt: &impl Abort,
    mut compared: Compared<S>,
    key_of: &K,
    seed: u32,
) -> Result<(), Fail>
    requires { K.IsAlwaysCallable key_of.now }
{
    let mut n = seed;
    for _ in 0..1000u32 {
        n = next(n);
        let key = key_of(n / 65536);
        if n / 16777216 % 3 == 0 {
            compared.look(rt, key);
        } else {
            compared.put(rt, key, row(n))?;
        }
    }
    for i in 0..80u32 {
        compared.look(rt, key_of(i));
    }
    Ok(())
}

// The run on a store of each kind, and on either: four lines, since no closure is generic over the store.
pub(crate) fn all_run<K: Fn(u32) -> u32 + Drop>(
    rt: &impl Abort,
    alloc: Global,
    capacity: usize,
    key_of: K,
    seed: u32,
) -> Result<(), Fail>
    requires { K.IsAlwaysCallable key_of }
{
    let hashed = Compared::new(alloc, capacity, Hashed::new)?;
    run(rt, hashed, &key_of, seed)?;
    let tree = Compared::new(alloc, capacity, Tree::new)?;
    run(rt, tree, &key_of, seed)?;
    let left = Compared::new(alloc, capacity, left)?;
    run(rt, left, &key_of, seed)?;
    let right = Compared::new(alloc, capacity, right)?;
    run(rt, right, &key_of, seed)
}

pub fn left(capacity: usize) -> Result<Either<Hashed, Tree>, Refusal> {
    Ok(Either::Left(Hashed::new(capacity)?))
}

pub fn right(capacity: usize) -> Result<Either<Hashed, Tree>, Refusal> {
    Ok(Either::Right(Tree::new(capacity)?))
}
