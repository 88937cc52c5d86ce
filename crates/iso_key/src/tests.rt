use crate::KeyIndex;
use iso_types::{Edge, Memory, Rid, Value};
use std::alloc::Global;
use std::test::Fail;

/// The keys n - 1 to 0, each with its own rid.
fn descending(alloc: Global, n: u32) -> Result<KeyIndex, Memory> {
    let mut index = KeyIndex::new(alloc);
    for at in 0..n {
        let key = n - 1 - at;
        index.insert(Value::Int(key as i64), Rid(key))?;
    }
    Ok(index)
}

/// How many pages there are, and whether the first has this many entries and each other that many.
fn pages(index: &KeyIndex, first: usize, other: usize) -> (usize, bool) {
    let mut right = true;
    for at in 0..10000usize {
        let Some(page) = index.page(at) else {
            return (at, right);
        };
        let wanted = if at == 0 { first } else { other };
        right = right && page.len() == wanted;
    }
    (10000, right)
}

/// How many entries `next_after` walks, and whether each has an odd rid.
fn walked(index: &KeyIndex) -> (u32, bool) {
    let mut count = 0u32;
    let mut odd = true;
    let mut at = index.first_from(None);
    for _ in 0..100000 {
        let Some(entry) = at else {
            return (count, odd);
        };
        odd = odd && entry.1.0 % 2 == 1;
        count = count.saturating_add(1);
        at = index.next_after(entry);
    }
    (count, odd)
}

#[test]
fn pages_of_descending_entries(rt: HostRuntime) -> Result<(), Fail> {
    let mut index = descending(rt.alloc(), 65536)?;
    let (count, right) = pages(&index, 81, 65);
    assert_eq!(rt; count, 1008);
    assert_eq!(rt; right, true);
    for at in 0..32768u32 {
        index.remove(Value::Int(2 * at as i64), Rid(2 * at));
    }
    let (count, odd) = walked(&index);
    assert_eq!(rt; count, 32768);
    assert_eq!(rt; odd, true);
    Ok(())
}

#[test]
fn finds_keys(rt: HostRuntime) -> Result<(), Fail> {
    let mut index = KeyIndex::new(rt.alloc());
    assert_eq!(rt; index.insert(Value::Int(5), Rid(0))?, true);
    assert_eq!(rt; index.insert(Value::Int(5), Rid(0))?, false);
    assert_eq!(rt; index.insert(Value::Int(7), Rid(1))?, true);
    assert_eq!(rt; index.has_key(Value::Int(5)), true);
    assert_eq!(rt; index.has_key(Value::Null), false);
    let low = Some(Edge {
        value: Value::Int(5),
        inclusive: false,
    });
    assert_eq!(rt; index.first_from(low).is_some(), true);
    assert_eq!(rt; index.next_key(Value::Int(7)).is_none(), true);
    assert_eq!(rt; index.remove(Value::Int(5), Rid(0)), true);
    assert_eq!(rt; index.remove(Value::Int(5), Rid(0)), false);
    assert_eq!(rt; index.has_key(Value::Int(5)), false);
    Ok(())
}

#[test]
fn takes_scattered_entries(rt: HostRuntime) -> Result<(), Fail> {
    let mut index = KeyIndex::new(rt.alloc());
    let mut seed = 1u64;
    let mut added = 0u32;
    for _ in 0..60000 {
        seed = seed
            .wrapping_mul(6364136223846793005)
            .wrapping_add(1442695040888963407);
        let key = seed >> 33;
        if index.insert(Value::Int(key as i64), Rid(key as u32))? {
            added = added.saturating_add(1);
        }
    }
    assert_eq!(rt; walk_count(&index), added);
    Ok(())
}

/// How many entries `next_after` walks.
fn walk_count(index: &KeyIndex) -> u32 {
    let mut count = 0u32;
    let mut at = index.first_from(None);
    for _ in 0..100000 {
        let Some(entry) = at else {
            return count;
        };
        count = count.saturating_add(1);
        at = index.next_after(entry);
    }
    count
}
