ghost use Rattle.std.specs.Prelude.{List, ◌∷◌, ◌++◌, Some, slice_get, [], true, map, length, ◌≡◌, ◌<◌, ◌≤◌, ◌+◌, IfOk, IfNone, IfSome, OnOk, OnErr, false, is_some, if◌then◌else◌};
ghost use Rattle.iso_queue.specs.Lines.{asked, is_grantable, is_granted, is_touched, is_used, is_waiter};
ghost use Rattle.iso_queue.specs.declared.types.Asked.{Asked as Outcome};
ghost use Rattle.std.specs.List.{IsDistinct, list_any};
ghost use Rattle.iso_queue.specs.Snapshots.{ordered};
ghost use Rattle.iso_types.specs.Ids.{name_eq};
ghost use Rattle.iso_types.specs.declared.value.Conn.{Conn as Holder};
ghost use Rattle.iso_types.specs.declared.value.Name.{Name as Other};
ghost use Rattle.iso_lines.specs.Named.{changed, key_of, line_of, nobody, same};
ghost use Rattle.iso_lines.specs.Weighs.{weighs};
ghost use Rattle.std.specs.Map.{keys_of};
ghost use Rattle.iso_lines.specs.Tasks.{worked};
ghost use Rattle.iso_lines.specs.Locks.{count_of, counts_below, names_of};

use crate::desk::{Desk, change_in, empty_desks, request_in};
use crate::lines::{Change, Lines};
use crate::reads::{awaited, claimable};
use crate::tasks::Task;
use crate::work::work;
use iso_modes::{Mode, Term};
use iso_queue::{Asked, Queue};
use iso_types::{Conn, Head, Items, Memory, Name, TableId};
use std::alloc::Global;
use std::marker::Model;

/// All lock names that somebody holds or awaits, each with its queue, the names of each of 32 connections, how many those
/// of all are, and the table of each index.
#[derive(Drop)]
pub struct Register {
    lines: Lines,
    desks: Vec<Desk>,
    total: u32,
    tables: Items<TableId>,
}

impl Model for Register {
    ghost use Rattle.std.specs.Prelude.{map};
    ghost use Rattle.iso_lines.specs.Locks.{Locks};
    ghost use Rattle.iso_lines.specs.Registers.{IsLocks};

    ghost Value = { Locks };

    ghost view = { λ l. record { lines = l.lines; names = map (λ d. d.names.entries) l.desks.items; tables = l.tables } };

    ghost invariant = { λ l. IsLocks l.lines l.desks.items l.total l.tables };
}

/// The total once one of its parts has grown by one, or not.
fn grown(total: u32, before: usize, after: usize) -> u32
    requires grows { before ≤ after }
    requires one { after ≤ before + 1 }
    requires room { before < after → total < 4294967295 }
    ensures { result + before ≡ total + after }
{
    if before < after { total + 1 } else { total }
}

/// The total once one of its parts has lessened.
fn lessened(total: u32, before: usize, after: usize) -> u32
    requires lessens { after ≤ before }
    requires part { before ≤ total }
    ensures { result + before ≡ total + after }
{
    let less = before - after;
    prove!(less <= total as usize);
    total - less as u32
}

/// The desk of the connection, where it has one.
fn desk_of(desks: &[Desk], conn: Conn) -> Option<&Desk>
    ensures some { IfSome result (λ d. slice_get desks.now conn.0 ≡ Some d.now) }
    ensures none { IfNone result (length desks.now ≤ conn.0) }
{
    desks.get(conn.0 as usize)
}

impl Register {
    /// A lock list in which nobody holds or awaits a name. `Memory`: want of memory.
    pub fn new(alloc: Global, tables: Items<TableId>) -> Result<Register, Memory>
        ensures lines { IfOk result (λ l. (n : Other) → line_of l.lines n ≡ nobody) }
        ensures empty { IfOk result (λ l. l.lines.index ≡ []) }
        ensures tables { IfOk result (λ l. l.tables ≡ tables) }
    {
        let lines = Lines::new(alloc);
        let desks = empty_desks(alloc)?;
        Ok(Register {
            lines,
            desks,
            total: 0,
            tables,
        })
    }

    /// Requests the mode on the name. `Memory`: want of memory, and nothing changed. There must be room for one name more in
    /// the total, where the connection neither holds nor awaits the name.
    pub fn request(
        &mut self,
        conn: Conn,
        name: &Name,
        mode: Mode,
        term: Term,
    ) -> Result<Asked, Memory>
        requires conn { conn.0 < 32 }
        requires room { is_touched (line_of self.old.lines name.now) conn ≡ false → counts_below self.old.names 32 < 4294967295 }
        ensures answer { IfOk result (λ a. a ≡ (if is_granted (line_of self.old.lines name.now) conn mode then Outcome.Granted else Outcome.Queued)) }
        ensures line { OnOk result (line_of self.new.lines name.now ≡ asked (line_of self.old.lines name.now) conn mode term) }
        ensures others { OnOk result ((n : Other) → name_eq name.now n ≡ false → line_of self.new.lines n ≡ line_of self.old.lines n) }
        ensures names { OnOk result (line_of self.old.lines name.now ≡ nobody → keys_of self.new.lines.index ≡ keys_of self.old.lines.index ++ name.now ∷ []) }
        ensures tables { self.new.tables ≡ self.old.tables }
        ensures err { OnErr result (self.new ≡ self.old) }
    {
        let desk = &mut self.desks[conn.0 as usize];
        let before = desk.names.len();
        let asked = request_in(
            &mut self.lines,
            desk,
            conn,
            self.tables.as_slice(),
            name,
            mode,
            term,
        )?;
        let after = desk.names.len();
        self.total = grown(self.total, before, after);
        Ok(asked)
    }

    /// Changes the connection's part in the name's line. It takes no memory.
    pub fn change(&mut self, conn: Conn, name: &Name, change: Change)
        requires { conn.0 < 32 }
        ensures line { line_of self.new.lines name.now ≡ changed change conn (line_of self.old.lines name.now) }
        ensures others { (n : Other) → name_eq name.now n ≡ false → line_of self.new.lines n ≡ line_of self.old.lines n }
        ensures last { (ns : List Other) → keys_of self.old.lines.index ≡ ns ++ name.now ∷ [] → is_used (changed change conn (line_of self.old.lines name.now)) ≡ false → keys_of self.new.lines.index ≡ ns }
        ensures tables { self.new.tables ≡ self.old.tables }
    {
        let desk = &mut self.desks[conn.0 as usize];
        let before = desk.names.len();
        change_in(
            &mut self.lines,
            desk,
            conn,
            self.tables.as_slice(),
            name,
            change,
        );
        let after = desk.names.len();
        self.total = lessened(self.total, before, after);
    }

    /// Does the task in the connection's part of each line. It takes no memory. Its cost is the number of the connection's names,
    /// for `Settle` that of its names at hand, and for `Cancel` and `Claim` that of the names that it awaits.
    pub fn work(&mut self, conn: Conn, task: &Task)
        requires { conn.0 < 32 }
        ensures tables { self.new.tables ≡ self.old.tables }
        ensures lines { (n : Other) → line_of self.new.lines n ≡ worked self.old.tables task.now conn n (line_of self.old.lines n) }
    {
        let desk = &mut self.desks[conn.0 as usize];
        let before = desk.names.len();
        work(&mut self.lines, desk, conn, self.tables.as_slice(), task);
        let after = desk.names.len();
        self.total = lessened(self.total, before, after);
    }

    /// The name's queue, or None where nobody holds or awaits it.
    pub fn queue(&self, name: &Name) -> Option<&Queue>
        ensures some { IfSome result (λ q. q.now ≡ line_of self.now.lines name.now) }
        ensures none { IfNone result (line_of self.now.lines name.now ≡ nobody) }
    {
        self.lines.queue(name)
    }

    /// How many names all connections hold or await, each on its own. Its cost is constant.
    pub fn total(&self) -> u32
        ensures total { result ≡ counts_below self.now.names 32 }
        ensures each { (c : Holder) → c.0 < 32 → (ns : List Other) → IsDistinct name_eq ns → ((n : Other) → list_any (name_eq n) ns ≡ is_touched (line_of self.now.lines n) c) → count_of self.now c ≡ length ns }
    {
        let _ = &self.lines;
        self.total
    }

    /// How many names the connection holds or awaits. Its cost is constant.
    pub fn count(&self, conn: Conn) -> u32
        requires { conn.0 < 32 }
        ensures count { result ≡ count_of self.now conn }
        ensures number { (ns : List Other) → IsDistinct name_eq ns → ((n : Other) → list_any (name_eq n) ns ≡ is_touched (line_of self.now.lines n) conn) → result ≡ length ns }
        ensures names { (n : Other) → is_some (key_of (names_of self.now conn) n) ≡ is_touched (line_of self.now.lines n) conn }
    {
        let count = self.desks[conn.0 as usize].names.len();
        prove!(count <= self.total as usize);
        count as u32
    }

    /// No name stands in the index twice.
    pub fn names_once(&self)
        ensures { IsDistinct same (keys_of self.now.lines.index) }
    {
        self.lines.names_once();
    }

    /// One of the names that the connection awaits. Its cost is the number of the names that it may await.
    pub fn awaited(&self, conn: Conn) -> Option<&Name>
        ensures some { IfSome result (λ n. is_waiter (line_of self.now.lines n.now).waiters conn ≡ true) }
        ensures none { IfNone result ((n : Other) → is_waiter (line_of self.now.lines n).waiters conn ≡ false) }
    {
        let desk = desk_of(&self.desks, conn)?;
        awaited(&self.lines, &desk.awaited, conn)
    }

    /// One of the names that the connection awaits, where its wait has no edge. Its cost is the number of the names that it
    /// may await, and of those who hold or await them.
    pub fn claimable(&self, conn: Conn) -> Option<&Name>
        ensures within { IfSome result (λ n. conn.0 < 32) }
        ensures some { IfSome result (λ n. is_grantable (line_of self.now.lines n.now) conn ≡ true) }
        ensures none { IfNone result ((n : Other) → is_grantable (line_of self.now.lines n) conn ≡ false) }
    {
        let desk = desk_of(&self.desks, conn)?;
        claimable(&self.lines, &desk.awaited, conn)
    }

    /// The table of each index.
    pub fn tables(&self) -> &[TableId]
        ensures { result.now ≡ self.now.tables }
    {
        self.tables.as_slice()
    }

    /// On how many rows and keys of the table the connection has a hold that is not Brief. Its cost is constant.
    pub fn weight(&self, conn: Conn, table: TableId) -> u32
        requires { conn.0 < 32 }
        ensures { (ns : List Other) → IsDistinct name_eq ns → ((n : Other) → list_any (name_eq n) ns ≡ weighs self.now.tables conn table n (line_of self.now.lines n)) → result ≡ length ns }
    {
        let desk = &self.desks[conn.0 as usize];
        let count = desk.names.len();
        let weight = desk.weights[table.0 as usize];
        prove!(count <= self.total as usize);
        prove!(weight <= count);
        weight as u32
    }

    /// The names that somebody holds or awaits, each once, in the order of a snapshot. `Memory`: want of memory. It sorts them.
    pub fn in_order(&self, alloc: Global, head: &Head) -> Result<Vec<&Name>, Memory>
        ensures { (ns : List Other) → ((n : Other) → list_any (λ m. name_eq m n) ns ≡ is_used (line_of self.now.lines n)) → IfOk result (λ v. map (λ n. n.now) v.items ≡ ordered head.now ns) }
    {
        self.lines.in_order(alloc, head)
    }
}
