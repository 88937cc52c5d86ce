ghost use Rattle.std.specs.Prelude.{◌≡◌, [], IfOk, OnErr, OnOk, if◌then◌else◌};
ghost use Rattle.iso_queue.specs.Lines.{Line, asked, claimed, edges_of, hold_of, is_granted, is_grantable, is_guarded_against, is_touched, is_used, settled, unheld, unqueued, waiter_of};
ghost use Rattle.iso_queue.specs.declared.types.Asked.{Asked as Outcome};
ghost use Rattle.iso_queue.specs.declared.types.Claimed.{Claimed as Answer};

use crate::lists;
use crate::lists::Holders;
use crate::types::{Asked, Claimed, Hold, Waiter};
use iso_modes::{Mode, Term};
use iso_types::{Conn, Edges, Memory};
use std::alloc::Global;
use std::marker::Model;

/// The holders of one name, and its waiters in queue order. Each call costs at most the number of both.
#[derive(Drop)]
pub struct Queue {
    holders: Holders,
    waiters: Vec<Waiter>,
}

impl Model for Queue {
    ghost use Rattle.std.specs.Prelude.{vec_len};
    ghost use Rattle.smallvec.specs.SmallVec.{HasRoomFor};
    ghost use Rattle.iso_queue.specs.Lines.{Line};

    ghost Value = { Line };

    ghost view = { λ q. record { holders = q.holders.items; waiters = q.waiters.items } };

    ghost invariant = { λ q. HasRoomFor q.holders (vec_len q.waiters) };
}

impl Queue {
    /// A queue that nobody stands in; it keeps the allocator.
    pub fn new(alloc: Global) -> Queue
        ensures holders { result.holders ≡ [] }
        ensures waiters { result.waiters ≡ [] }
    {
        Queue {
            holders: Holders::new(alloc),
            waiters: Vec::new(alloc),
        }
    }

    /// The connection's hold.
    pub fn hold(&self, conn: Conn) -> Option<Hold>
        ensures { result ≡ hold_of self.now.holders conn }
    {
        lists::find_hold(self.holders.as_slice(), conn)
    }

    /// Whether a request for the mode would be granted at once: where its target is the held mode, or it would have
    /// no edge as last of the queue, a conversion as last of the conversions.
    pub fn would_grant(&self, conn: Conn, mode: Mode) -> bool
        ensures { result ≡ is_granted self.now conn mode }
    {
        lists::grants(self.holders.as_slice(), &self.waiters, conn, mode)
    }

    /// Requests the mode. `Granted`: the connection holds it, with what it held before. `Queued`: the connection waits,
    /// before the waiting new requests where it holds the name, else last; room for its later hold is reserved.
    /// A term that was Kept stays Kept. `Memory`: want of memory, and nothing changed.
    pub fn ask(&mut self, conn: Conn, mode: Mode, term: Term) -> Result<Asked, Memory>
        ensures answer { IfOk result (λ a. a ≡ (if is_granted self.old conn mode then Outcome.Granted else Outcome.Queued)) }
        ensures line { OnOk result (self.new ≡ asked self.old conn mode term) }
        ensures err { OnErr result (self.new ≡ self.old) }
    {
        if lists::grants(self.holders.as_slice(), &self.waiters, conn, mode) {
            self.holders.reserve(self.waiters.len() + 1)?;
            lists::grant(&mut self.holders, Hold { conn, mode, term });
            return Ok(Asked::Granted);
        }
        let target = lists::target(self.holders.as_slice(), conn, mode);
        let wait = Waiter { conn, target, term };
        let at = lists::place_in_queue(self.holders.as_slice(), &self.waiters, wait);
        self.holders.reserve(self.waiters.len() + 1)?;
        self.waiters.insert(at, wait)?;
        Ok(Asked::Queued)
    }

    /// Grants the connection's wait where it has no edge, in the room that was reserved; else nothing changes.
    /// `NotYet`: the wait has an edge, or the connection does not wait here. It takes no memory.
    pub fn claim(&mut self, conn: Conn) -> Claimed
        ensures answer { result ≡ (if is_grantable self.old conn then Answer.Granted else Answer.NotYet) }
        ensures line { self.new ≡ claimed self.old conn }
    {
        let Some(wait) = lists::find_waiter(&self.waiters, conn) else {
            return Claimed::NotYet;
        };
        if lists::is_stuck(self.holders.as_slice(), &self.waiters, wait) {
            return Claimed::NotYet;
        }
        let new = Hold {
            conn,
            mode: wait.target,
            term: wait.term,
        };
        lists::unqueue(&mut self.waiters, conn);
        lists::grant(&mut self.holders, new);
        Claimed::Granted
    }

    /// Whether the connection waits here, and its wait has no edge. It takes no memory.
    pub fn can_claim(&self, conn: Conn) -> bool
        ensures { result ≡ is_grantable self.now conn }
    {
        match lists::find_waiter(&self.waiters, conn) {
            Some(wait) => !lists::is_stuck(self.holders.as_slice(), &self.waiters, wait),
            None => false,
        }
    }

    /// The connection's hold goes. It takes no memory.
    pub fn release(&mut self, conn: Conn)
        ensures holders { self.new.holders ≡ unheld conn self.old.holders }
        ensures waiters { self.new.waiters ≡ self.old.waiters }
    {
        lists::unhold(&mut self.holders, conn);
    }

    /// The connection's Fresh hold becomes Kept where it is not spared, and its Brief hold goes. It takes no memory.
    pub fn settle(&mut self, conn: Conn, spared: bool)
        ensures { self.new ≡ settled self.old conn spared }
    {
        lists::settle(&mut self.holders, conn, spared);
    }

    /// The holders, in order of their first grant.
    pub fn holders(&self) -> &[Hold]
        ensures { result.now ≡ self.now.holders }
    {
        self.holders.as_slice()
    }

    /// The waiters, in queue order.
    pub fn waiters(&self) -> &[Waiter]
        ensures { result.now ≡ self.now.waiters }
    {
        self.waiters.as_slice()
    }

    /// The connection's wait goes. It takes no memory.
    pub fn cancel(&mut self, conn: Conn)
        ensures holders { self.new.holders ≡ self.old.holders }
        ensures waiters { self.new.waiters ≡ unqueued conn self.old.waiters }
    {
        lists::unqueue(&mut self.waiters, conn);
    }

    /// The connections to which the connection's wait has an edge: each other holder in a mode that does not go with
    /// the target, and each earlier waiter.
    pub fn edges(&self, conn: Conn) -> Edges
        ensures { result.0 ≡ edges_of self.now conn }
    {
        match lists::find_waiter(&self.waiters, conn) {
            Some(wait) => Edges(lists::edge_bits(self.holders.as_slice(), &self.waiters, wait)),
            None => Edges(0),
        }
    }

    /// The connection's wait.
    pub fn wait(&self, conn: Conn) -> Option<Waiter>
        ensures { result ≡ waiter_of self.now.waiters conn }
    {
        lists::find_waiter(&self.waiters, conn)
    }

    /// Whether another connection holds S or NW.
    pub fn is_guarded(&self, conn: Conn) -> bool
        ensures { result ≡ is_guarded_against self.now.holders conn }
    {
        lists::is_guarded(self.holders.as_slice(), conn)
    }

    /// Whether the connection holds or awaits the name.
    pub fn touches(&self, conn: Conn) -> bool
        ensures { result ≡ is_touched self.now conn }
    {
        lists::holds(self.holders.as_slice(), conn)
            || lists::find_waiter(&self.waiters, conn).is_some()
    }

    /// Whether somebody holds or awaits the name. Its cost is constant.
    pub fn in_use(&self) -> bool
        ensures { result ≡ is_used self.now }
    {
        lists::is_held(self.holders.as_slice()) || lists::is_awaited(&self.waiters)
    }
}
