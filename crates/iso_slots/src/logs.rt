//! The calls of a log that a change makes only from within.
ghost use Rattle.std.specs.Prelude.{◌≡◌};

use iso_log::{Log, LogFault};
use iso_record::{Change, Record};
use iso_types::{Config, Rid, TableId};
use std::alloc::Global;

/// The record of a deletion, with this number.
fn deletion(number: u32) -> Record
    ensures { result.number ≡ number }
{
    Record {
        number,
        unit: 1,
        table: TableId(0),
        rid: Rid(0),
        change: Change::Delete,
        prev_row: None,
        prev_unit: None,
        after: None,
    }
}

/// Whether the log has the record of this number in its place.
fn has(log: &Log, number: u32) -> bool {
    match log.walk(number) {
        Some(note) => note.number == number && matches!(&note.change, Change::Delete),
        None => false,
    }
}

/// Whether a record goes into the room that the one before it has reserved, and both are found in their places.
pub fn appends_in_reserve(alloc: Global) -> Result<bool, LogFault> {
    let config = Config {
        cur_commit: true,
        locklist: 4,
        maxlocks: 50,
        logmax: 8,
        window: 8,
    };
    let mut log = Log::new(alloc, &config);
    let first = log.len();
    log.append(deletion(first), first, 0)?;
    let second = log.len();
    log.append_reserved(deletion(second));
    Ok(log.len() == 2 && has(&log, 0) && has(&log, 1) && log.walk(2).is_none())
}
