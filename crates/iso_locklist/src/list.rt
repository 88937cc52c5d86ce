ghost use Rattle.std.specs.Prelude.{drop, List, ◌∷◌, ◌++◌, ◌≡◌, ◌<◌, ◌≤◌, [], IfOk, IfSome, IfNone, OnOk, OnErr, false, true, if◌then◌else◌, length, map};
ghost use Rattle.iso_locklist.specs.Holding.{AreAsked, AreNew, AreOfHead, IsNew, all_added, HasTables, LocksAre, WaitsOnce, room_asked, room_in_lists, settled_beside};
ghost use Rattle.iso_locklist.specs.Lists.{asked_for, IsSingleIn, claimed_holds, claimed_waits, grants_in, named_hold};
ghost use Rattle.iso_locklist.specs.Places.{IsLimited, IsSameLimits, all_taken, are_apart, cancelled, is_covered, is_grantable_in, is_spared, line_at, names, need_of, nobody, released, room_for, room_to_ask, taken};
ghost use Rattle.iso_locklist.specs.Weights.{weight_in};
ghost use Rattle.iso_lines.specs.Tasks.{worked};
ghost use Rattle.iso_queue.specs.Lines.{asked, bits_of, claimed, edges_of, has_mode, hold_of, is_granted, is_guarded_against, is_used, is_waiter, settled, waiter_of};
ghost use Rattle.iso_queue.specs.Locks.{Hold as Held, added, collapsed, dropped, freed, hold_on, others_guard, without_briefs};
ghost use Rattle.iso_queue.specs.Limits as limits;
ghost use Rattle.iso_modes.specs.declared.Term.TheVariants as Terms;
ghost use Rattle.iso_queue.specs.Locks as locks;
ghost use Rattle.iso_queue.specs.Queues as queues;
ghost use Rattle.iso_queue.specs.Queues.{Wait as Awaiting, is_waiting, queue, unqueued, wait_of};
ghost use Rattle.iso_queue.specs.Snapshots.{snapshot};
ghost use Rattle.std.specs.List.{list_any};
ghost use Rattle.std.specs.Option.{option_map, option_map_or};
ghost use Rattle.iso_queue.specs.declared.types.Asked.{Asked as Outcome};
ghost use Rattle.iso_queue.specs.declared.types.Claimed.{Claimed as Answer};
ghost use Rattle.iso_types.specs.Ids.{conn_eq, name_eq};
ghost use Rattle.iso_types.specs.declared.value.Name.{Name as Other};
ghost use Rattle.iso_types.specs.Head.{lock_share, lock_slots};
ghost use Rattle.iso_types.specs.declared.head.Head.{Head as Declared};

use crate::covering::index_tables;
use crate::places::{Asking, same_mode};
use crate::room::{LockFault, Room, room_beside, room_in};
use crate::snapshot::list_lines;
use iso_lines::{Change, Register, Task, table_of};
use iso_modes::{Mode, Term, covers, joined};
use iso_queue::{Asked, Claimed, Hold, LockLine, Queue};
use iso_types::{Conn, Edges, Head, Items, Memory, Name, TableId};
use std::alloc::Global;
use std::marker::Model;

/// All lock names that somebody holds or awaits, each with its queue, and the names of each of 32 connections. To find a
/// name costs the same however many there are; no call but `snapshot` goes over the names of others.
#[derive(Drop)]
pub struct LockList {
    register: Register,
    share: u32,
    slots: u32,
    alloc: Global,
}

impl Model for LockList {
    ghost use Rattle.iso_locklist.specs.Places.{IsLedger, Ledger, places_in};

    ghost Value = { Ledger };

    ghost view = { λ l. record { places = places_in l.register.lines; share = l.share; slots = l.slots; index_tables = l.register.tables } };

    ghost invariant = { λ l. IsLedger (places_in l.register.lines) };
}

impl LockList {
    /// A lock list in which nobody holds or awaits a name, with the slots, the share and the table of each index that the
    /// head gives. `Memory`: want of memory. Its cost is the number of indexes.
    pub fn new(alloc: Global, head: &Head) -> Result<LockList, Memory>
        requires pages { head.now.config.locklist ≤ 4096 }
        requires percent { head.now.config.maxlocks ≤ 100 }
        ensures lists { IfOk result (λ l. LocksAre [] [] l) }
        ensures places { IfOk result (λ l. l.places ≡ []) }
        ensures share { IfOk result (λ l. l.share ≡ lock_share head.now.config) }
        ensures slots { IfOk result (λ l. l.slots ≡ lock_slots head.now.config) }
        ensures index_tables { IfOk result (λ l. l.index_tables ≡ map (λ d. d.table) head.now.indexes) }
    {
        let tables = index_tables(alloc, head.indexes.as_slice())?;
        let register = Register::new(alloc, tables)?;
        register.names_once();
        Ok(LockList {
            register,
            share: head.config.share(),
            slots: head.config.slots(),
            alloc,
        })
    }

    /// How many names the connection holds or awaits. Its cost is constant.
    pub fn count(&self, conn: Conn) -> u32
        requires { conn.0 < 32 }
        ensures { (hs : List Held) (xs : List Awaiting) → LocksAre hs xs self.now → IsSingleIn hs xs conn → result ≡ limits.taken hs xs conn }
    {
        let _ = &self.register;
        self.count_at(conn)
    }

    /// The sum of the counts of all connections. Its cost is constant.
    pub fn total(&self) -> u32
        ensures { (head : Declared) (hs : List Held) (xs : List Awaiting) → LocksAre hs xs self.now → AreOfHead head hs xs → result ≡ limits.all_taken head hs xs }
    {
        let _ = &self.register;
        self.total_at()
    }

    /// Whether a need of so many more slots is at a limit. Its cost is constant.
    pub fn room(&self, conn: Conn, more: u32) -> Room
        requires { conn.0 < 32 }
        ensures { (head : Declared) (hs : List Held) (xs : List Awaiting) → LocksAre hs xs self.now → AreOfHead head hs xs → result ≡ room_in_lists head self.now hs xs conn more }
    {
        let _ = &self.register;
        self.room_at(conn, more)
    }

    /// How many holds the connection has on the rows and keys of the table that are not Brief. Its cost is constant.
    /// Db2 LUW, 'Lock escalation'; that Brief holds do not count is this project's own.
    pub fn weight(&self, conn: Conn, table: TableId) -> u32
        requires { conn.0 < 32 }
        ensures { (head : Declared) (hs : List Held) (xs : List Awaiting) → HasTables head self.now → LocksAre hs xs self.now → IsSingleIn hs xs conn → result ≡ limits.weight head hs conn table }
    {
        let _ = &self.register;
        self.weight_at(conn, table)
    }

    /// The connection's hold on the name. Its cost is the number of those who hold the name.
    pub fn held(&self, conn: Conn, name: Name) -> Option<Hold>
        ensures { (hs : List Held) (xs : List Awaiting) → LocksAre hs xs self.now → option_map (named_hold name) result ≡ hold_on hs conn name }
    {
        self.hold_at(conn, &name)
    }

    /// Whether a request for the mode would be granted without a wait. Its cost is the number of those who hold or
    /// await the name.
    pub fn would_grant(&self, conn: Conn, name: Name, mode: Mode) -> bool
        ensures { (hs : List Held) (xs : List Awaiting) → LocksAre hs xs self.now → is_waiting xs conn ≡ false → result ≡ grants_in hs xs conn name mode }
    {
        let _ = &self.register;
        self.grants_at(conn, &name, mode)
    }

    /// Whether the connection's hold on the name's table covers a request for the mode, which then takes no lock. Nothing
    /// covers a request on a table. Its cost is the number of those who hold the table.
    pub fn covered(&self, conn: Conn, name: Name, mode: Mode) -> bool
        ensures { (head : Declared) (hs : List Held) (xs : List Awaiting) → HasTables head self.now → LocksAre hs xs self.now → result ≡ locks.is_covered head hs conn name mode }
    {
        let _ = &self.register;
        self.is_covered_at(conn, &name, mode)
    }

    /// The name and the target of the connection's wait. Its cost is the number of those who hold or await the name.
    pub fn waits(&self, conn: Conn) -> Option<(Name, Mode)>
        ensures { (hs : List Held) (xs : List Awaiting) → LocksAre hs xs self.now → WaitsOnce xs conn → result ≡ option_map (λ x. (x.name, x.target)) (wait_of xs conn) }
    {
        match self.awaited_at(conn) {
            Some(name) => match self.target_at(conn, name) {
                Some(target) => Some((*name, target)),
                None => None,
            },
            None => None,
        }
    }

    /// Whether the connection waits, and its wait has no edge: a claim is granted then. Its cost is the number of
    /// those who hold or await the name on which it waits.
    pub fn can_claim(&self, conn: Conn) -> bool
        ensures { (hs : List Held) (xs : List Awaiting) → LocksAre hs xs self.now → WaitsOnce xs conn → result ≡ queues.is_grantable hs xs conn }
    {
        let _ = &self.register;
        self.can_claim_at(conn)
    }

    /// The connections to which the connection's wait has an edge: each other holder of the name in a mode that does not
    /// go with the target, and each earlier waiter. Its cost is 32 times the number of those who hold or await the
    /// name.
    pub fn edges(&self, conn: Conn) -> Edges
        ensures { (hs : List Held) (xs : List Awaiting) → LocksAre hs xs self.now → WaitsOnce xs conn → result.0 ≡ option_map_or (λ x. bits_of (λ d. list_any (conn_eq d) (queues.blockers hs xs x)) 32) (wait_of xs conn) 0 }
    {
        let _ = &self.register;
        match self.awaited_at(conn) {
            Some(name) => self.edges_at(conn, name),
            None => Edges(0),
        }
    }

    /// Whether another connection holds S or NW on the name. Its cost is the number of those who hold the name.
    pub fn others_hold(&self, conn: Conn, name: Name) -> bool
        ensures { (hs : List Held) (xs : List Awaiting) → LocksAre hs xs self.now → result ≡ others_guard hs conn name }
    {
        self.is_guarded_at(conn, &name)
    }

    /// Whether somebody holds or awaits the name. Its cost is constant.
    pub fn in_use(&self, name: Name) -> bool
        ensures { result ≡ is_used (line_at self.now.places name) }
    {
        match self.queue_of(&name) {
            Some(queue) => queue.in_use(),
            None => false,
        }
    }

    /// Requests the mode on the name. `Granted`: the connection holds it, with what it held before. `Queued`: it waits.
    /// Its need is a slot, or none where it holds or awaits the name. `AtShare`, `AtCapacity`: the need is at that limit,
    /// whatever the queue; never where it holds the mode already. `Memory`: want of memory. After a fault nothing changed. Its
    /// cost is at most the product of those who hold and those who await the name.
    pub fn request(
        &mut self,
        conn: Conn,
        name: Name,
        mode: Mode,
        term: Term,
    ) -> Result<Asked, LockFault>
        requires { conn.0 < 32 }
        ensures limit { (head : Declared) (hs : List Held) (xs : List Awaiting) → LocksAre hs xs self.old → AreOfHead head hs xs → IsLimited (room_asked head self.old hs xs conn name mode) result }
        ensures answer { (hs : List Held) (xs : List Awaiting) → LocksAre hs xs self.old → is_waiting xs conn ≡ false → IfOk result (λ a. a ≡ (if grants_in hs xs conn name mode then Outcome.Granted else Outcome.Queued)) }
        ensures lists { (hs : List Held) (xs : List Awaiting) → LocksAre hs xs self.old → is_waiting xs conn ≡ false → OnOk result (AreAsked (grants_in hs xs conn name mode) hs xs conn name mode term self.new) }
        ensures limits { IsSameLimits self.new self.old }
        ensures err { OnErr result (self.new ≡ self.old) }
    {
        let _ = &self.register;
        self.request_at(conn, &name, mode, term)
    }

    /// The same, told by the line of the name.
    fn request_at(
        &mut self,
        conn: Conn,
        name: &Name,
        mode: Mode,
        term: Term,
    ) -> Result<Asked, LockFault>
        requires { conn.0 < 32 }
        ensures limit { IsLimited (room_to_ask self.old conn name.now mode) result }
        ensures answer { IfOk result (λ a. a ≡ (if is_granted (line_at self.old.places name.now) conn mode then Outcome.Granted else Outcome.Queued)) }
        ensures line { OnOk result (line_at self.new.places name.now ≡ asked (line_at self.old.places name.now) conn mode term) }
        ensures others { (n : Other) → name_eq name.now n ≡ false → line_at self.new.places n ≡ line_at self.old.places n }
        ensures names { OnOk result (line_at self.old.places name.now ≡ nobody → names self.new.places ≡ names self.old.places ++ name.now ∷ []) }
        ensures was_apart { are_apart (names self.old.places) ≡ true }
        ensures lists { (hs : List Held) (xs : List Awaiting) → LocksAre hs xs self.old → is_waiting xs conn ≡ false → OnOk result (AreAsked (grants_in hs xs conn name.now mode) hs xs conn name.now mode term self.new) }
        ensures limits { IsSameLimits self.new self.old }
        ensures err { OnErr result (self.new ≡ self.old) }
    {
        let room = self.room_at(conn, self.need_at(conn, name));
        match room_beside(self.holds_mode(conn, name, mode), room) {
            Room::AtShare => return Err(LockFault::AtShare),
            Room::AtCapacity => return Err(LockFault::AtCapacity),
            Room::Free => {}
        }
        let _ = self.register.total();
        let asked = match self.register.request(conn, name, mode, term) {
            Ok(asked) => asked,
            Err(_) => return Err(LockFault::Memory),
        };
        self.register.names_once();
        Ok(asked)
    }

    /// Requests the modes on names that nobody holds or awaits, each to be kept: all are granted, or none is. `AtShare`,
    /// `AtCapacity`: one of them is at that limit. `Memory`: want of memory. After a fault nothing changed.
    /// Its cost is that of as many requests.
    pub fn request_new(&mut self, conn: Conn, requests: &[Asking]) -> Result<(), LockFault>
        requires { conn.0 < 32 }
        ensures lists { (hs : List Held) (xs : List Awaiting) → LocksAre hs xs self.old → is_waiting xs conn ≡ false → AreNew hs xs requests.now → OnOk result (LocksAre (all_added hs conn requests.now) xs self.new) }
        ensures limits { IsSameLimits self.new self.old }
        ensures err { (hs : List Held) (xs : List Awaiting) → LocksAre hs xs self.old → is_waiting xs conn ≡ false → AreNew hs xs requests.now → OnErr result (LocksAre hs xs self.new) }
        ensures same { (hs : List Held) (xs : List Awaiting) → LocksAre hs xs self.old → is_waiting xs conn ≡ false → AreNew hs xs requests.now → OnErr result (self.new ≡ self.old) }
    {
        self.request_from(conn, requests, 0)
    }

    /// Requests the mode on a name that nobody holds or awaits, to be kept: it is granted, and the name stands behind the
    /// others. `AtShare`, `AtCapacity`: the request is at that limit. `Memory`: want of memory. After a fault nothing
    /// changed. Its cost is that of a request.
    pub fn request_kept(&mut self, conn: Conn, name: &Name, mode: Mode) -> Result<(), LockFault>
        requires { conn.0 < 32 }
        ensures lists { (hs : List Held) (xs : List Awaiting) → LocksAre hs xs self.old → is_waiting xs conn ≡ false → IsNew hs xs name.now → OnOk result (LocksAre (added hs conn (asked_for name.now mode Terms.Kept)) xs self.new) }
        ensures line { OnOk result (line_at self.new.places name.now ≡ asked (line_at self.old.places name.now) conn mode Terms.Kept) }
        ensures others { OnOk result ((n : Other) → name_eq name.now n ≡ false → line_at self.new.places n ≡ line_at self.old.places n) }
        ensures names { OnOk result (line_at self.old.places name.now ≡ nobody → names self.new.places ≡ names self.old.places ++ name.now ∷ []) }
        ensures was_apart { are_apart (names self.old.places) ≡ true }
        ensures limits { IsSameLimits self.new self.old }
        ensures err { OnErr result (self.new ≡ self.old) }
    {
        self.request_at(conn, name, mode, Term::Kept)?;
        Ok(())
    }

    /// The connection's hold on the name goes.
    fn release_one(&mut self, conn: Conn, name: &Name)
        requires { conn.0 < 32 }
        ensures line { line_at self.new.places name.now ≡ released (line_at self.old.places name.now) conn }
        ensures others { (n : Other) → name_eq name.now n ≡ false → line_at self.new.places n ≡ line_at self.old.places n }
        ensures last { (ns : List Other) → names self.old.places ≡ ns ++ name.now ∷ [] → is_used (released (line_at self.old.places name.now) conn) ≡ false → names self.new.places ≡ ns }
        ensures is_apart { are_apart (names self.new.places) ≡ true }
        ensures limits { IsSameLimits self.new self.old }
    {
        self.release(conn, *name);
    }

    /// The same from this place on.
    fn request_from(&mut self, conn: Conn, requests: &[Asking], at: usize) -> Result<(), LockFault>
        requires conn { conn.0 < 32 }
        requires at { at ≤ length requests.now }
        ensures lists { (hs : List Held) (xs : List Awaiting) → LocksAre hs xs self.old → is_waiting xs conn ≡ false → AreNew hs xs (drop at requests.now) → OnOk result (LocksAre (all_added hs conn (drop at requests.now)) xs self.new) }
        ensures limits { IsSameLimits self.new self.old }
        ensures err { (hs : List Held) (xs : List Awaiting) → LocksAre hs xs self.old → is_waiting xs conn ≡ false → AreNew hs xs (drop at requests.now) → OnErr result (self.new ≡ self.old) }
    {
        if at == requests.len() {
            return Ok(());
        }
        let asking = &requests[at];
        self.request_kept(conn, &asking.name, asking.mode)?;
        match self.request_from(conn, requests, at + 1) {
            Ok(()) => Ok(()),
            Err(fault) => {
                self.release_one(conn, &asking.name);
                Err(fault)
            }
        }
    }

    /// The connection's hold on the name goes. It takes no memory. Its cost is the number of those who hold or await the
    /// name.
    pub fn release(&mut self, conn: Conn, name: Name)
        requires { conn.0 < 32 }
        ensures line { line_at self.new.places name ≡ released (line_at self.old.places name) conn }
        ensures others { (n : Other) → name_eq name n ≡ false → line_at self.new.places n ≡ line_at self.old.places n }
        ensures last { (ns : List Other) → names self.old.places ≡ ns ++ name ∷ [] → is_used (released (line_at self.old.places name) conn) ≡ false → names self.new.places ≡ ns }
        ensures is_apart { are_apart (names self.new.places) ≡ true }
        ensures lists { (hs : List Held) (xs : List Awaiting) → LocksAre hs xs self.old → LocksAre (freed conn name hs) xs self.new }
        ensures limits { IsSameLimits self.new self.old }
    {
        self.register.change(conn, &name, Change::Release);
        self.register.names_once();
    }

    /// The connection's hold on each name goes; its wait stays. It takes no memory. Its cost is the number of its names
    /// and of those who hold or await them.
    pub fn release_all(&mut self, conn: Conn)
        requires { conn.0 < 32 }
        ensures lines { (n : Other) → line_at self.new.places n ≡ released (line_at self.old.places n) conn }
        ensures lists { (hs : List Held) (xs : List Awaiting) → LocksAre hs xs self.old → LocksAre (dropped conn hs) xs self.new }
        ensures limits { IsSameLimits self.new self.old }
    {
        self.work(conn, &Task::Release);
    }

    /// Each Fresh hold of the connection becomes Kept, but on the name that is spared, and then its Brief holds go; all else
    /// stays. It takes no memory. Its cost is the number of the names on which its hold is Fresh or Brief.
    pub fn settle(&mut self, conn: Conn, spare: Option<Name>)
        requires { conn.0 < 32 }
        ensures lines { (n : Other) → line_at self.new.places n ≡ settled (line_at self.old.places n) conn (is_spared spare n) }
        ensures lists { (hs : List Held) (xs : List Awaiting) → LocksAre hs xs self.old → LocksAre (without_briefs hs conn (locks.settled conn spare hs)) xs self.new }
        ensures limits { IsSameLimits self.new self.old }
    {
        self.work(conn, &Task::Settle(spare, None));
    }

    /// The same, but for a hold that was placed in this step on a name that the connection did not hold: it stays as it is.
    pub fn settle_beside(&mut self, conn: Conn, spare: Option<Name>, placed: Name)
        requires { conn.0 < 32 }
        ensures lists { (hs : List Held) (xs : List Awaiting) → LocksAre hs xs self.old → LocksAre (settled_beside conn spare placed hs) xs self.new }
        ensures limits { IsSameLimits self.new self.old }
    {
        self.work(conn, &Task::Settle(spare, Some(placed)));
    }

    /// The connection's holds on the rows and keys of the table go; its hold on the table stays, and so does its wait. It
    /// takes no memory. Its cost is the number of its names and of those who hold or await them. Db2 LUW, 'Lock escalation'.
    pub fn collapse(&mut self, conn: Conn, table: TableId)
        requires { conn.0 < 32 }
        ensures lists { (head : Declared) (hs : List Held) (xs : List Awaiting) → HasTables head self.old → LocksAre hs xs self.old → LocksAre (collapsed head conn table hs) xs self.new }
        ensures limits { IsSameLimits self.new self.old }
    {
        self.work(conn, &Task::Collapse(table));
    }

    /// The connection's wait goes, on whatever name it waits; its holds stay. It takes no memory. Its cost is the number
    /// of those who hold or await the name on which it waits.
    pub fn cancel(&mut self, conn: Conn)
        requires { conn.0 < 32 }
        ensures lines { (n : Other) → line_at self.new.places n ≡ cancelled (line_at self.old.places n) conn }
        ensures lists { (hs : List Held) (xs : List Awaiting) → LocksAre hs xs self.old → LocksAre hs (unqueued conn xs) self.new }
        ensures limits { IsSameLimits self.new self.old }
    {
        self.work(conn, &Task::Cancel);
    }

    /// Grants the connection's wait where it has no edge, with what the connection held before; else nothing changes.
    /// `NotYet`: the wait has an edge, or the connection does not wait. It takes no memory. Its cost is the number of
    /// those who hold or await the name on which it waits.
    pub fn claim(&mut self, conn: Conn) -> Claimed
        ensures answer { result ≡ (if is_grantable_in self.old.places conn then Answer.Granted else Answer.NotYet) }
        ensures lines { (n : Other) → line_at self.new.places n ≡ claimed (line_at self.old.places n) conn }
        ensures lists { (hs : List Held) (xs : List Awaiting) → LocksAre hs xs self.old → WaitsOnce xs conn → LocksAre (claimed_holds hs xs conn) (claimed_waits hs xs conn) self.new }
        ensures told { (hs : List Held) (xs : List Awaiting) → LocksAre hs xs self.old → WaitsOnce xs conn → result ≡ (if queues.is_grantable hs xs conn then Answer.Granted else Answer.NotYet) }
        ensures limits { IsSameLimits self.new self.old }
    {
        if self.can_claim_at(conn) {
            self.work(conn, &Task::Claim);
            Claimed::Granted
        } else {
            Claimed::NotYet
        }
    }

    /// The lines of all names that somebody holds or awaits, as a snapshot tells them: by table in order of declaration its
    /// name, its rows by rid, then for each of its indexes the keys in order and END; at each name the holders among the
    /// head's connections, by connection, then the waiters in queue order, so a connection that converts its lock has two
    /// lines. `Memory`: want of memory. It sorts the names, and for each its cost is 32 times those who hold it, and the
    /// product of those who hold it and those who await it. Db2 LUW, 'MON_GET_LOCKS'; the order is this project's own.
    pub fn snapshot(&self, head: &Head) -> Result<Items<LockLine>, Memory>
        requires { length head.now.conns ≤ 32 }
        ensures { (hs : List Held) (xs : List Awaiting) → LocksAre hs xs self.now → IfOk result (λ lines. lines ≡ snapshot head.now hs xs) }
    {
        let names = self.register.in_order(self.alloc, head)?;
        list_lines(self.alloc, head, &self.register, &names)
    }

    /// The connection's hold in the line of the name.
    fn hold_at(&self, conn: Conn, name: &Name) -> Option<Hold>
        ensures { result ≡ hold_of (line_at self.now.places name.now).holders conn }
    {
        match self.queue_of(name) {
            Some(queue) => queue.hold(conn),
            None => None,
        }
    }

    /// Whether another connection holds S or NW in the line of the name.
    fn is_guarded_at(&self, conn: Conn, name: &Name) -> bool
        ensures { result ≡ is_guarded_against (line_at self.now.places name.now).holders conn }
    {
        match self.queue_of(name) {
            Some(queue) => queue.is_guarded(conn),
            None => false,
        }
    }

    /// The name's queue, or None where nobody holds or awaits it.
    fn queue_of(&self, name: &Name) -> Option<&Queue>
        ensures some { IfSome result (λ q. q.now ≡ line_at self.now.places name.now) }
        ensures none { IfNone result (line_at self.now.places name.now ≡ nobody) }
    {
        self.register.queue(name)
    }

    /// A name in whose line the connection waits.
    fn awaited_at(&self, conn: Conn) -> Option<&Name>
        ensures some { IfSome result (λ n. is_waiter (line_at self.now.places n.now).waiters conn ≡ true) }
        ensures none { IfNone result ((n : Other) → is_waiter (line_at self.now.places n).waiters conn ≡ false) }
    {
        self.register.awaited(conn)
    }

    /// The target of the connection's wait in the line of the name.
    fn target_at(&self, conn: Conn, name: &Name) -> Option<Mode>
        ensures { result ≡ option_map (λ w. w.target) (waiter_of (line_at self.now.places name.now).waiters conn) }
    {
        match self.queue_of(name) {
            Some(queue) => match queue.wait(conn) {
                Some(wait) => Some(wait.target),
                None => None,
            },
            None => None,
        }
    }

    /// The edges of the connection's wait in the line of the name.
    fn edges_at(&self, conn: Conn, name: &Name) -> Edges
        ensures { result.0 ≡ edges_of (line_at self.now.places name.now) conn }
    {
        match self.queue_of(name) {
            Some(queue) => queue.edges(conn),
            None => Edges(0),
        }
    }

    /// Whether the line of the name's table has a hold of the connection that covers the mode.
    fn is_covered_at(&self, conn: Conn, name: &Name, mode: Mode) -> bool
        ensures { result ≡ is_covered self.now conn name.now mode }
    {
        let Some(table) = table_of(self.register.tables(), name) else {
            return false;
        };
        match self.hold_at(conn, &Name::Table(table)) {
            Some(hold) => covers(hold.mode, mode),
            None => false,
        }
    }

    /// Whether the connection waits in a line where its wait has no edge.
    fn can_claim_at(&self, conn: Conn) -> bool
        ensures within { result ≡ true → conn.0 < 32 }
        ensures answer { result ≡ is_grantable_in self.now.places conn }
        ensures told { (hs : List Held) (xs : List Awaiting) → LocksAre hs xs self.now → WaitsOnce xs conn → result ≡ queues.is_grantable hs xs conn }
    {
        self.register.claimable(conn).is_some()
    }

    /// Whether a request for the mode is granted in the line of the name.
    fn grants_at(&self, conn: Conn, name: &Name, mode: Mode) -> bool
        ensures { result ≡ is_granted (line_at self.now.places name.now) conn mode }
    {
        match self.queue_of(name) {
            Some(queue) => queue.would_grant(conn, mode),
            None => true,
        }
    }

    /// The slots that a request needs.
    fn need_at(&self, conn: Conn, name: &Name) -> u32
        ensures { result ≡ need_of self.now.places conn name.now }
    {
        match self.queue_of(name) {
            Some(queue) => { if queue.touches(conn) { 0 } else { 1 } }
            None => 1,
        }
    }

    /// Whether the connection holds the mode already.
    fn holds_mode(&self, conn: Conn, name: &Name, mode: Mode) -> bool
        ensures { result ≡ has_mode (line_at self.now.places name.now).holders conn mode }
    {
        match self.hold_at(conn, name) {
            Some(hold) => same_mode(joined(hold.mode, mode), hold.mode),
            None => false,
        }
    }

    /// How many lines the connection stands in.
    fn count_at(&self, conn: Conn) -> u32
        requires { conn.0 < 32 }
        ensures { result ≡ taken self.now.places conn }
    {
        self.register.count(conn)
    }

    /// How many lines of the table's rows and keys have a hold of the connection that is not Brief.
    fn weight_at(&self, conn: Conn, table: TableId) -> u32
        requires { conn.0 < 32 }
        ensures { result ≡ weight_in self.now conn table }
    {
        self.register.weight(conn, table)
    }

    /// The sum of the counts.
    fn total_at(&self) -> u32
        ensures { result ≡ all_taken self.now.places }
    {
        self.register.total()
    }

    /// The room for so many more lines.
    fn room_at(&self, conn: Conn, more: u32) -> Room
        requires { conn.0 < 32 }
        ensures { result ≡ room_for self.now conn more }
    {
        let count = self.count_at(conn);
        room_in(count, self.total_at(), self.share, self.slots, more)
    }

    /// Does the task in the connection's part of each line.
    fn work(&mut self, conn: Conn, task: &Task)
        requires { conn.0 < 32 }
        ensures lines { (n : Other) → line_at self.new.places n ≡ worked self.old.index_tables task.now conn n (line_at self.old.places n) }
        ensures was_apart { are_apart (names self.old.places) ≡ true }
        ensures is_apart { are_apart (names self.new.places) ≡ true }
        ensures limits { IsSameLimits self.new self.old }
    {
        self.register.work(conn, task);
        self.register.names_once();
    }
}
