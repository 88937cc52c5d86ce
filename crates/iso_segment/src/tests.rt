ghost use Rattle.std.specs.Prelude.{◌≤◌};

use crate::Store;
use iso_types::{Memory, Twin};
use std::alloc::{AllocError, Global};
use std::process::Abort;
use std::thread;
use std::thread::Threads;

/// A number as an item.
#[derive(Drop)]
struct Item {
    number: u32,
}

impl Twin for Item {
    fn twin(&self, _alloc: Global) -> Result<Item, Memory> {
        Ok(Item {
            number: self.number,
        })
    }
}

/// Adds so many items, each its own number, with or without a seal before each.
fn fill(store: &mut Store<Item>, count: u32, sealed: bool) -> bool {
    for _ in 0..count {
        if sealed && store.seal().is_err() {
            return false;
        }
        if store.reserve(1).is_err() {
            return false;
        }
        let number = store.len();
        add(store, number);
    }
    true
}

/// Adds an item where there is room for it.
fn add(store: &mut Store<Item>, number: u32)
    requires { 1 ≤ store.old.spare }
{
    store.push_reserved(Item { number });
}

/// Whether the pin has each item from `first` to `last`, and none beside them.
fn holds(store: &Store<Item>, first: u32, last: u32) -> bool {
    if first > last || last >= store.len() {
        return false;
    }
    match store.pin(first, last) {
        Ok(pin) => (0..700).all(|number| match pin.item(number) {
            Some(item) => item.number == number && first <= number && number <= last,
            None => number < first || last < number,
        }),
        Err(_) => false,
    }
}

#[test]
fn pins_of_600_items(rt: HostRuntime) {
    let mut store = Store::new(rt.alloc());
    assert!(rt; fill(&mut store, 600, false));
    for (first, last) in [
        (0, 599),
        (255, 256),
        (599, 599),
        (511, 512),
        (512, 599),
        (0, 255),
    ] {
        assert!(rt; holds(&store, first, last));
    }
}

#[test]
fn sealed_after_each_item(rt: HostRuntime) {
    let mut store = Store::new(rt.alloc());
    assert!(rt; fill(&mut store, 40, true));
    assert!(rt; fill(&mut store, 560, false));
    assert!(rt; holds(&store, 0, 599) && holds(&store, 39, 40) && holds(&store, 599, 599));
    assert!(rt; store.get(600).is_none() && store.get(41).is_some_and(|item| item.number == 41));
}
