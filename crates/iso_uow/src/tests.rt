use crate::{Marks, Units};
use iso_types::{Conn, Text};
use std::process::Abort;

/// A name for each number.
fn name(number: u32) -> Text {
    match Text::new(&number.to_be_bytes()) {
        Some(name) => name,
        None => unreachable!(),
    }
}

/// Sets so many savepoints, each at its own number.
fn set_all(marks: &mut Marks, count: u32) -> bool {
    for number in 0..count {
        if marks.set(name(number), number).is_err() {
            return false;
        }
    }
    true
}

/// Whether there are these savepoints, and none of the next names up to `end`.
fn are_set(marks: &Marks, count: u32, end: u32) -> bool {
    (0..end).all(|number| {
        let floor = marks.floor(name(number));
        if number < count {
            floor == Some(number)
        } else {
            floor.is_none()
        }
    })
}

#[test]
fn savepoints_30_000(rt: HostRuntime) {
    let mut marks = Marks::new(rt.alloc());
    assert!(rt; set_all(&mut marks, 30_000));
    assert!(rt; are_set(&marks, 30_000, 30_001));
    marks.back(name(9_999));
    assert!(rt; are_set(&marks, 10_000, 30_000));
    // A savepoint that is set again is the newest.
    assert!(rt; marks.set(name(0), 77).is_ok());
    assert!(rt; marks.floor(name(0)) == Some(77));
    marks.back(name(9_999));
    assert!(rt; marks.floor(name(0)).is_none() && marks.floor(name(1)) == Some(1));
    marks.back(name(0));
    assert!(rt; marks.floor(name(1)).is_none());
}

#[test]
fn a_unit_with_a_savepoint(rt: HostRuntime) {
    match Units::new(rt.alloc(), 2) {
        Ok(units) => {
            let mut units = units;
            let conn = Conn(1);
            assert!(rt; units.begin(conn) == 1);
            assert!(rt; units.mark(conn, name(7), 5).is_ok());
            assert!(rt; units.floor(conn, name(7)) == Some(5) && units.unit(conn) == Some(1));
        }
        Err(_) => assert!(rt; false),
    }
}

/// Whether the units tell this debt and this oldest record.
fn tell(units: &Units, debt: u32, oldest: Option<u32>) -> bool {
    units.debt() == debt && units.oldest() == oldest
}

#[test]
fn debt_and_oldest_are_kept(rt: HostRuntime) {
    match Units::new(rt.alloc(), 3) {
        Ok(units) => {
            let mut units = units;
            let young = Conn(0);
            let old = Conn(2);
            assert!(rt; tell(&units, 0, None));
            assert!(rt; units.begin(young) == 1 && units.begin(old) == 2);
            assert!(rt; tell(&units, 0, None));
            units.added(old, 3);
            units.added(young, 4);
            units.added(old, 5);
            assert!(rt; tell(&units, 3, Some(3)));
            // A record that is undone is no longer owed, but its unit still began there.
            units.undone(old, Some(3));
            assert!(rt; tell(&units, 2, Some(3)) && units.last(old) == Some(3));
            units.finish(old);
            assert!(rt; tell(&units, 1, Some(4)));
            units.finish(young);
            assert!(rt; tell(&units, 0, None));
        }
        Err(_) => assert!(rt; false),
    }
}
