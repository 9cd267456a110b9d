use crate::compared::Compared;
use crate::runs::*;
use hashed::table::Hashed;
use std::alloc::{AllocError, Global};
use std::array;
use std::process::Abort;
use std::test::Fail;
use store::{Row, Store};
use tree::arena::Tree;
use values::refusal::Refusal;

#[test]
fn runs_over_dense_keys(rt: HostRuntime) -> Result<(), Fail> {
    all_run(&rt, rt.alloc(), 64, |n| n % 80, 1)?;
    all_run(&rt, rt.alloc(), 40, |n| n % 80, 2)?;
    all_run(&rt, rt.alloc(), 2, |n| n % 80, 3)?;
    all_run(&rt, rt.alloc(), 1, |n| n % 80, 4)
}

#[test]
fn runs_over_keys_equal_modulo_64(rt: HostRuntime) -> Result<(), Fail> {
    all_run(&rt, rt.alloc(), 64, |n| n % 80 * 64, 5)?;
    all_run(&rt, rt.alloc(), 33, |n| n % 80 * 64, 6)
}

#[test]
fn runs_over_keys_equal_modulo_128(rt: HostRuntime) -> Result<(), Fail> {
    all_run(&rt, rt.alloc(), 64, |n| n % 80 * 128, 7)?;
    all_run(&rt, rt.alloc(), 33, |n| n % 80 * 128, 8)
}

#[test]
fn runs_over_the_highest_keys(rt: HostRuntime) -> Result<(), Fail> {
    all_run(&rt, rt.alloc(), 64, |n| u32::MAX - n % 80, 9)?;
    all_run(&rt, rt.alloc(), 50, |n| u32::MAX - n % 80, 10)
}

#[test]
fn runs_over_any_keys(rt: HostRuntime) -> Result<(), Fail> {
    all_run(&rt, rt.alloc(), 64, |n| n, 11)?;
    all_run(&rt, rt.alloc(), 63, |n| n, u32::MAX)
}

// A refusal as a user meets it.
fn numbered(refusal: Refusal) -> (u8, Option<usize>) {
    (refusal.number(), refusal.value())
}

// Fills the store with the keys: each is new, then held, and one key more is refused by its name.
fn fill<S: Store + Drop>(
    rt: &impl Abort,
    mut compared: Compared<S>,
    keys: &[u32],
    more: u32,
) -> Result<(), Fail> {
    for key in keys {
        assert!(rt; !compared.store.holds(*key));
        assert_eq!(rt; compared.store.get(*key), Row::null());
        compared.put(rt, *key, row(*key))?;
        assert!(rt; compared.store.holds(*key));
    }
    assert_eq!(rt; compared.store.free(), 0);
    assert_eq!(rt;
        compared.store.put(more, row(3)).map_err(numbered),
        Err((15, Some(more as usize)))
    );
    assert!(rt; !compared.store.holds(more));
    for key in keys {
        compared.look(rt, *key);
        assert_eq!(rt; compared.store.get(*key), row(*key));
    }
    for key in keys {
        assert_eq!(rt; compared.store.put(*key, row(7)), Ok(()));
        assert_eq!(rt; compared.store.get(*key), row(7));
    }
    assert_eq!(rt; compared.store.free(), 0);
    Ok(())
}

fn all_fill(rt: &impl Abort, alloc: Global, keys: &[u32], more: u32) -> Result<(), Fail> {
    fill(
        rt,
        Compared::new(alloc, keys.len(), Hashed::new)?,
        keys,
        more,
    )?;
    fill(rt, Compared::new(alloc, keys.len(), Tree::new)?, keys, more)?;
    fill(rt, Compared::new(alloc, keys.len(), left)?, keys, more)?;
    fill(rt, Compared::new(alloc, keys.len(), right)?, keys, more)
}

#[test]
fn one_row_and_no_more(rt: HostRuntime) -> Result<(), Fail> {
    all_fill(&rt, rt.alloc(), &[0], 1)?;
    all_fill(&rt, rt.alloc(), &[1], 0)?;
    all_fill(&rt, rt.alloc(), &[u32::MAX], 0)
}

#[test]
fn lowest_and_highest_key(rt: HostRuntime) -> Result<(), Fail> {
    all_fill(&rt, rt.alloc(), &[0, u32::MAX], 1 << 31)?;
    all_fill(&rt, rt.alloc(), &[u32::MAX, 0, 1 << 31], 1)
}

#[test]
fn ascending_and_descending_keys(rt: HostRuntime) -> Result<(), Fail> {
    let ascending: [u32; 64] = array::from_fn(|i| i as u32 * 3);
    let descending: [u32; 64] = array::from_fn(|i| u32::MAX - i as u32);
    all_fill(&rt, rt.alloc(), &ascending, 1)?;
    all_fill(&rt, rt.alloc(), &descending, 0)
}

// The first 64 keys whose search in a hashed table begins at the place.
fn keys_that_share(alloc: Global, place: u32) -> Result<Vec<u32>, AllocError> {
    (1..20000u32)
        .filter(|key| key.wrapping_mul(2654435761) >> 25 == place)
        .take(64)
        .collect(alloc)
}

#[test]
fn keys_that_share_their_first_place(rt: HostRuntime) -> Result<(), Fail> {
    let middle = keys_that_share(rt.alloc(), 40)?;
    assert_eq!(rt; middle.len(), 64);
    all_fill(&rt, rt.alloc(), &middle, 20001)?;
    // The search goes on from the last place to the first.
    let last = keys_that_share(rt.alloc(), 127)?;
    assert_eq!(rt; last.len(), 64);
    all_fill(&rt, rt.alloc(), &last, 20001)
}

#[test]
fn capacities(rt: HostRuntime) -> Result<(), Fail> {
    for capacity in [0, 65, 128, usize::MAX] {
        assert_eq!(rt; Hashed::new(capacity).err().map(u8::from), Some(17));
        assert_eq!(rt; Tree::new(capacity).err().map(u8::from), Some(17));
    }
    for capacity in 1..=64usize {
        assert_eq!(rt; Hashed::new(capacity)?.free(), capacity);
        assert_eq!(rt; Tree::new(capacity)?.free(), capacity);
    }
    Ok(())
}

// A row with no value, and the null row, are rows: their key is held.
fn holds_null<S: Store + Drop>(rt: &impl Abort, mut store: S) {
    assert_eq!(rt; store.put(9, row(5)), Ok(()));
    assert_eq!(rt; store.get(9).value, None);
    assert_eq!(rt; store.get(9), row(5));
    assert_eq!(rt; store.put(8, Row::null()), Ok(()));
    assert!(rt; store.holds(8));
    assert_eq!(rt; store.get(8), Row::null());
    assert_eq!(rt; store.free(), 0);
    assert_eq!(rt;
        store.put(7, Row::null()).map_err(numbered),
        Err((15, Some(7)))
    );
    assert!(rt; !store.holds(7));
}

#[test]
fn rows_without_a_value(rt: HostRuntime) -> Result<(), Fail> {
    holds_null(&rt, Hashed::new(2)?);
    holds_null(&rt, Tree::new(2)?);
    Ok(())
}
