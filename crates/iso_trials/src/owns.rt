//! What a connection's own entries leave to be asked of them, read from the history.
ghost use Rattle.std.specs.Prelude.{◌≡◌, None};
ghost use Rattle.iso_history.specs.After.{after};
ghost use Rattle.iso_history.specs.Lasts.{due_of, due_of_claim, due_of_lock, last_of, last_of_lock};
ghost use Rattle.iso_history.specs.World.{Last, World};
ghost use Rattle.iso_state.specs.Stands.{world_of};
ghost use Rattle.iso_types.specs.declared.head.Head.{Head};
ghost use Rattle.iso_trials.specs.Owned.{IsOwn, looked_of};

use iso_history::{Act, Entry, Got, Who, Why};
use iso_modes::Mode;
use iso_state::Parts;
use iso_types::{Conn, Name, Rid, TableId};

/// What is known of a connection's own entries: the slot of the last one, where that is a look that was granted; the table and
/// the mode of the last one, where that is an escalation that queued; and the Collapse that is due.
#[derive(Clone, Copy)]
pub struct Own {
    pub looked: Option<(TableId, Rid)>,
    pub awaits: Option<(TableId, Mode)>,
    pub due: Option<(TableId, Mode)>,
}

/// Nothing is left to be asked.
fn nothing() -> Own
    ensures looked { result.looked ≡ None }
    ensures awaits { result.awaits ≡ None }
    ensures due { result.due ≡ None }
{
    Own {
        looked: None,
        awaits: None,
        due: None,
    }
}

/// After an escalation of the table.
fn escalated(table: TableId, mode: Mode, got: Got) -> Own
    ensures looked { result.looked ≡ None }
    ensures awaits { result.awaits ≡ due_of_claim (last_of_lock Why.Escalation got (Name.Table table) mode) }
    ensures due { result.due ≡ due_of_lock Why.Escalation got (Name.Table table) mode }
{
    match got {
        Got::Granted => Own {
            looked: None,
            awaits: None,
            due: Some((table, mode)),
        },
        Got::Queued(_) => Own {
            looked: None,
            awaits: Some((table, mode)),
            due: None,
        },
        Got::TimedOut => nothing(),
    }
}

/// After a request.
fn asked(name: &Name, mode: Mode, why: Why, got: Got) -> Own
    ensures looked { result.looked ≡ looked_of (last_of_lock why got name.now mode) }
    ensures awaits { result.awaits ≡ due_of_claim (last_of_lock why got name.now mode) }
    ensures due { result.due ≡ due_of_lock why got name.now mode }
{
    match why {
        Why::Asked => nothing(),
        Why::Escalation => match name {
            Name::Table(table) => escalated(*table, mode, got),
            Name::Row(..) => nothing(),
            Name::Key(..) => nothing(),
            Name::End(_) => nothing(),
        },
        Why::Blocked => nothing(),
    }
}

/// After an own entry.
fn read_act(own: Own, act: &Act) -> Own
    ensures looked { result.looked ≡ looked_of (last_of act.now) }
    ensures awaits { result.awaits ≡ due_of_claim (last_of act.now) }
    ensures due { (last : Last) → own.awaits ≡ due_of_claim last → result.due ≡ due_of act.now last }
{
    match act {
        Act::Lock {
            name,
            mode,
            why,
            got,
            ..
        } => asked(name, *mode, *why, *got),
        Act::Look {
            table,
            rid,
            got: Got::Granted,
            ..
        } => Own {
            looked: Some((*table, *rid)),
            awaits: None,
            due: None,
        },
        Act::Claim => Own {
            looked: None,
            awaits: None,
            due: own.awaits,
        },
        _ => nothing(),
    }
}

/// After an entry.
fn read_entry(own: Own, conn: Conn, entry: &Entry) -> Own
    ensures { (head : Head) (w : World) → IsOwn w conn own → IsOwn (after head w entry.now) conn result }
{
    match entry.who {
        Who::Dispatcher => own,
        Who::Agent(maker) => {
            if conn.0 == maker.0 {
                read_act(own, &entry.act)
            } else {
                own
            }
        }
    }
}

/// What is known of the connection's own entries. It looks at each entry of the history.
pub fn own_of(parts: &Parts, conn: Conn) -> Own
    ensures { IsOwn (world_of parts.now) conn result }
{
    let mut own = nothing();
    let entries = parts.history.as_slice();
    for at in 0..entries.len() {
        own = read_entry(own, conn, &entries[at]);
    }
    own
}
