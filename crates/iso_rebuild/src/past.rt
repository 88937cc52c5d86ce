ghost use Rattle.std.specs.Prelude.{◌≡◌};
ghost use Rattle.iso_rebuild.specs.Chains.{HasChain, IsRebuilt};

use iso_record::{Record, undo_on};
use iso_segment::Pin;
use iso_types::Row;

/// What is kept of a slot with pending changes: the log's records from the slot's first to its head, the slot's row
/// and liveness, and the number of the head.
#[derive(Drop)]
pub struct Past {
    pub pin: Pin<Record>,
    pub row: Row,
    pub live: bool,
    pub head: u32,
}

/// The row that the slot showed before its chain, None where it showed no row: every record of the chain, from the head to
/// the first, is undone on the row. It takes no memory, and waits for nobody.
pub fn rebuild(past: Past) -> Option<Row>
    requires chain { HasChain past }
    ensures rebuilt { IsRebuilt past result }
{
    let Past {
        pin,
        mut row,
        mut live,
        head,
    } = past;
    let mut at = Some(head);
    while let Some(number) = at {
        match pin.item(number) {
            Some(note) => {
                undo_on(note, &mut row, &mut live);
                at = note.prev_row;
            }
            None => unreachable!(),
        }
    }
    if live { Some(row) } else { None }
}
