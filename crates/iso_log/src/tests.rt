ghost use Rattle.std.specs.Prelude.{◌≡◌, length};

use crate::{Log, LogFault};
use iso_record::{Change, Record};
use iso_segment::Pin;
use iso_types::{Config, Rid, TableId};
use std::process::Abort;
use std::thread;
use std::thread::Threads;

fn config(logmax: u32, window: u32) -> Config {
    Config {
        cur_commit: true,
        locklist: 4,
        maxlocks: 50,
        logmax,
        window,
    }
}

/// The record of a deletion, by unit 1.
fn note(number: u32) -> Record
    ensures { result.number ≡ number }
{
    Record {
        number,
        unit: 1,
        table: TableId(0),
        rid: Rid(number),
        change: Change::Delete,
        prev_row: None,
        prev_unit: None,
        after: None,
    }
}

/// Appends the next record.
fn append(log: &mut Log, oldest: u32, debt: u32) -> Result<(), LogFault> {
    let number = log.len();
    log.append(note(number), oldest, debt)
}

/// Appends so many records of units that each end at once.
fn fill(log: &mut Log, count: u32) -> bool {
    for _ in 0..count {
        let oldest = log.len();
        if append(log, oldest, 0).is_err() {
            return false;
        }
    }
    true
}

/// Whether the pin has each record from `first` to `last`, and none beside them.
fn has_records(pin: &Pin<Record>, first: u32, last: u32) -> bool {
    (0..1000).all(|number| match pin.item(number) {
        Some(note) => note.number == number && first <= number && number <= last,
        None => number < first || last < number,
    })
}

/// The records from one number to another; None where they are not there, or want of memory.
fn pinned(log: &Log, first: u32, last: u32) -> Option<Pin<Record>> {
    if first > last || last >= log.len() {
        return None;
    }
    match log.pin(first, last) {
        Ok(pin) => Some(pin),
        Err(_) => None,
    }
}

#[test]
fn logmax_3(rt: HostRuntime) {
    // Records before, the oldest record of an open unit, the debt; whether the next change is past the log.
    let table = [
        (0, 0, 0, false),
        (1, 0, 1, true),
        (1, 1, 0, false),
        (2, 1, 1, true),
        (2, 2, 0, false),
        (2, 0, 0, true),
    ];
    for (before, oldest, debt, full) in table {
        let mut log = Log::new(rt.alloc(), &config(3, 8));
        assert!(rt; fill(&mut log, before));
        assert!(rt; log.full(oldest, debt) == full);
        match append(&mut log, oldest, debt) {
            Ok(()) => assert!(rt; !full && log.len() == before + 1),
            Err(fault) => assert!(rt; full && fault == LogFault::LogFull && log.len() == before),
        }
    }
}

#[test]
fn window_of_8(rt: HostRuntime) {
    let mut log = Log::new(rt.alloc(), &config(100, 8));
    assert!(rt; fill(&mut log, 20));
    assert!(rt; !log.in_window(11) && log.in_window(12) && log.in_window(19));
}

#[test]
fn a_pin_is_read_beside_appends(rt: HostRuntime) {
    let mut log = Log::new(rt.alloc(), &config(1000, 8));
    assert!(rt; fill(&mut log, 600));
    match pinned(&log, 250, 599) {
        Some(pin) => {
            let more = &mut log;
            let (filled, read) = thread::join(
                &rt,
                move || fill(more, 300),
                move || has_records(&pin, 250, 599),
            );
            assert!(rt; filled && read && log.len() == 900);
        }
        None => assert!(rt; false),
    }
}
