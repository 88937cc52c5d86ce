ghost use Rattle.std.specs.Prelude.{◌≡◌, ◌≤◌, ◌∷◌, ◌++◌, List, length, map, [], IfSome, IfNone, IfOk, OnOk, OnErr, false, if◌then◌else◌, slice_set, Some, None, IsSome, is_some, true};
ghost use Rattle.std.specs.List.{IsDistinct, list_any};
ghost use Rattle.std.specs.Map.{keys_of};
ghost use Rattle.std.specs.Option.{option_copied};
ghost use Rattle.slab.specs.Slab.{ContainsKey, get as slot, Updates};
ghost use Rattle.indexmap.specs.IndexMap.{IsUnchanged, insert_entry};
ghost use Rattle.iso_queue.specs.Lines.{Line, asked, is_granted, is_used};
ghost use Rattle.iso_queue.specs.declared.types.Asked.{Asked as Outcome};
ghost use Rattle.iso_queue.specs.Snapshots.{ordered};
ghost use Rattle.iso_types.specs.Ids.{name_eq};
ghost use Rattle.iso_types.specs.declared.value.Name.{Name as Other};
ghost use Rattle.iso_lines.specs.Named.{IsNamed, IsWhole, Named, changed, kept, key_of, line_of, nobody, same};

use crate::order::in_order;
use indexmap::IndexMap;
use iso_modes::{Mode, Term};
use iso_queue::{Asked, Queue};
use iso_types::{Conn, Head, Memory, Name};
use slab::Slab;
use std::alloc::Global;
use std::marker::Model;

/// What is done to a connection's part in the line of a name.
#[derive(Clone, Copy, PartialEq, Eq)]
pub enum Change {
    /// Its hold goes.
    Release,
    /// Its wait goes.
    Cancel,
    /// Its Fresh hold becomes Kept unless it is spared, and its Brief hold goes.
    Settle(bool),
    /// Its wait is granted where it has no edge.
    Claim,
}

/// The names that somebody holds or awaits, each with its queue: an index from names to keys of queues. Each call costs
/// what its queue's call does, and the search in the index.
#[derive(Drop)]
pub struct Lines {
    index: IndexMap<Name, usize>,
    queues: Slab<Queue>,
    alloc: Global,
}

impl Model for Lines {
    ghost use Rattle.iso_lines.specs.Named.{IsWhole, Named};

    ghost Value = { Named };

    ghost view = { λ l. record { index = l.index.entries; slots = l.queues.slots } };

    ghost invariant = { λ l. IsWhole l.index.entries l.queues.slots };
}

/// The name's key in the index.
pub fn find(index: &IndexMap<Name, usize>, name: &Name) -> Option<usize>
    ensures { result ≡ key_of index.now.entries name.now }
{
    index.get(name).copied()
}

/// Keeps a key for the name.
fn keep(index: &mut IndexMap<Name, usize>, name: &Name, key: usize) -> Result<(), Memory>
    requires { key_of index.old.entries name.now ≡ None }
    ensures key { OnOk result (key_of index.new.entries name.now ≡ Some key) }
    ensures others { OnOk result ((n : Other) → same name.now n ≡ false → key_of index.new.entries n ≡ key_of index.old.entries n) }
    ensures entries { OnOk result (index.new.entries ≡ insert_entry same index.old.entries name.now key) }
    ensures err { OnErr result (index.new.entries ≡ index.old.entries) }
{
    index.entry(*name)?.or_insert(key);
    Ok(())
}

/// Forgets the name.
pub fn forget(index: &mut IndexMap<Name, usize>, name: &Name)
    ensures gone { key_of index.new.entries name.now ≡ None }
    ensures others { (n : Other) → same name.now n ≡ false → key_of index.new.entries n ≡ key_of index.old.entries n }
    ensures fewer { length index.new.entries ≤ length index.old.entries }
    ensures last { (ns : List Other) → keys_of index.old.entries ≡ ns ++ name.now ∷ [] → keys_of index.new.entries ≡ ns }
{
    let _ = index.len();
    index.swap_remove(name);
}

/// Changes the connection's part in a queue.
fn change_queue(queue: &mut Queue, conn: Conn, change: Change)
    ensures { queue.new ≡ changed change conn queue.old }
{
    match change {
        Change::Release => queue.release(conn),
        Change::Cancel => queue.cancel(conn),
        Change::Settle(spared) => queue.settle(conn, spared),
        Change::Claim => {
            queue.claim(conn);
        }
    }
}

/// The same under a key.
fn change_at(queues: &mut Slab<Queue>, key: usize, conn: Conn, change: Change)
    requires { ContainsKey queues.old key }
    ensures { (q : Line) → slot queues.old key ≡ Some q → queues.new.slots ≡ slice_set queues.old.slots key (Some (changed change conn q)) }
{
    change_queue(&mut queues[key], conn, change);
}

/// Asks for the mode in the queue under a key.
fn ask_at(
    queues: &mut Slab<Queue>,
    key: usize,
    conn: Conn,
    mode: Mode,
    term: Term,
) -> Result<Asked, Memory>
    requires { ContainsKey queues.old key }
    ensures answer { IfOk result (λ a. (q : Line) → slot queues.old key ≡ Some q → a ≡ (if is_granted q conn mode then Outcome.Granted else Outcome.Queued)) }
    ensures line { OnOk result ((q : Line) → slot queues.old key ≡ Some q → queues.new.slots ≡ slice_set queues.old.slots key (Some (asked q conn mode term))) }
    ensures err { OnErr result (queues.new.slots ≡ queues.old.slots) }
{
    queues[key].ask(conn, mode, term)
}

/// Asks for the mode on a name that nobody holds or awaits: its queue is made. All memory is taken before anything changes.
fn ask_new(
    index: &mut IndexMap<Name, usize>,
    queues: &mut Slab<Queue>,
    alloc: Global,
    name: &Name,
    conn: Conn,
    mode: Mode,
    term: Term,
) -> Result<Asked, Memory>
    requires none { key_of index.old.entries name.now ≡ None }
    requires whole { IsWhole index.old.entries queues.old.slots }
    ensures answer { IfOk result (λ a. a ≡ (if is_granted nobody conn mode then Outcome.Granted else Outcome.Queued)) }
    ensures whole { IsWhole index.new.entries queues.new.slots }
    ensures names { OnOk result (keys_of index.new.entries ≡ keys_of index.old.entries ++ name.now ∷ []) }
    ensures line { OnOk result (line_of (record { index = index.new.entries; slots = queues.new.slots }) name.now ≡ asked nobody conn mode term) }
    ensures others { OnOk result ((n : Other) → name_eq name.now n ≡ false → line_of (record { index = index.new.entries; slots = queues.new.slots }) n ≡ line_of (record { index = index.old.entries; slots = queues.old.slots }) n) }
    ensures index { OnErr result (index.new.entries ≡ index.old.entries) }
    ensures slots { OnErr result (queues.new.slots ≡ queues.old.slots) }
{
    let mut queue = Queue::new(alloc);
    let asked = queue.ask(conn, mode, term)?;
    queues.reserve(1)?;
    let key = queues.vacant_key();
    keep(index, name, key)?;
    queues.insert_reserved(queue);
    Ok(asked)
}

/// Takes a name out that nobody holds or awaits any more.
fn sweep(index: &mut IndexMap<Name, usize>, queues: &mut Slab<Queue>, name: &Name, key: usize)
    requires key { key_of index.old.entries name.now ≡ Some key }
    requires named { IsNamed index.old.entries queues.old.slots }
    requires used { (n : Other) → name_eq name.now n ≡ false → is_some (key_of index.old.entries n) ≡ true → is_used (line_of (kept index.old.entries queues.old.slots) n) ≡ true }
    ensures whole { IsWhole index.new.entries queues.new.slots }
    ensures last { (ns : List Other) → keys_of index.old.entries ≡ ns ++ name.now ∷ [] → is_used (line_of (kept index.old.entries queues.old.slots) name.now) ≡ false → keys_of index.new.entries ≡ ns }
    ensures line { line_of (record { index = index.new.entries; slots = queues.new.slots }) name.now ≡ line_of (record { index = index.old.entries; slots = queues.old.slots }) name.now }
    ensures others { (n : Other) → name_eq name.now n ≡ false → line_of (record { index = index.new.entries; slots = queues.new.slots }) n ≡ line_of (record { index = index.old.entries; slots = queues.old.slots }) n }
{
    if !queues[key].in_use() {
        forget(index, name);
        queues.remove(key);
    }
}

impl Lines {
    /// No name: nobody holds or awaits any. It takes no memory.
    pub fn new(alloc: Global) -> Lines
        ensures lines { (n : Other) → line_of result n ≡ nobody }
        ensures empty { result.index ≡ [] }
    {
        Lines {
            index: IndexMap::new(alloc),
            queues: Slab::new(alloc),
            alloc,
        }
    }

    /// The name's queue, or None where nobody holds or awaits it.
    pub fn queue(&self, name: &Name) -> Option<&Queue>
        ensures some { IfSome result (λ q. q.now ≡ line_of self.now name.now) }
        ensures none { IfNone result (line_of self.now name.now ≡ nobody) }
    {
        let key = find(&self.index, name)?;
        self.queues.get(key)
    }

    /// No name stands in the index twice.
    pub fn names_once(&self)
        ensures { IsDistinct same (keys_of self.now.index) }
    {
        let _ = self.index.len();
    }

    /// The names that somebody holds or awaits, each once. `Memory`: want of memory.
    pub fn names(&self, alloc: Global) -> Result<Vec<&Name>, Memory>
        ensures { IfOk result (λ v. map (λ n. n.now) v.items ≡ keys_of self.now.index) }
    {
        let names: Vec<&Name> = self.index.keys().collect(alloc)?;
        Ok(names)
    }

    /// The names that somebody holds or awaits, each once, in the order of a snapshot. `Memory`: want of memory.
    pub fn in_order(&self, alloc: Global, head: &Head) -> Result<Vec<&Name>, Memory>
        ensures { (ns : List Other) → ((n : Other) → list_any (λ m. name_eq m n) ns ≡ is_used (line_of self.now n)) → IfOk result (λ v. map (λ n. n.now) v.items ≡ ordered head.now ns) }
    {
        let _ = self.index.len();
        in_order(head, self.names(alloc)?)
    }

    /// Asks for the mode on the name, as `Queue::ask` does. `Memory`: want of memory, and nothing changed.
    pub fn ask(&mut self, name: &Name, conn: Conn, mode: Mode, term: Term) -> Result<Asked, Memory>
        ensures answer { IfOk result (λ a. a ≡ (if is_granted (line_of self.old name.now) conn mode then Outcome.Granted else Outcome.Queued)) }
        ensures line { OnOk result (line_of self.new name.now ≡ asked (line_of self.old name.now) conn mode term) }
        ensures others { OnOk result ((n : Other) → name_eq name.now n ≡ false → line_of self.new n ≡ line_of self.old n) }
        ensures names { OnOk result (line_of self.old name.now ≡ nobody → keys_of self.new.index ≡ keys_of self.old.index ++ name.now ∷ []) }
        ensures err { OnErr result (self.new ≡ self.old) }
    {
        match find(&self.index, name) {
            Some(key) => {
                let asked = ask_at(&mut self.queues, key, conn, mode, term)?;
                Ok(asked)
            }
            None => ask_new(
                &mut self.index,
                &mut self.queues,
                self.alloc,
                name,
                conn,
                mode,
                term,
            ),
        }
    }

    /// Changes the connection's part in the name's line. A name that nobody holds or awaits is taken out. It takes no memory.
    pub fn change(&mut self, name: &Name, conn: Conn, change: Change)
        ensures line { line_of self.new name.now ≡ changed change conn (line_of self.old name.now) }
        ensures others { (n : Other) → name_eq name.now n ≡ false → line_of self.new n ≡ line_of self.old n }
        ensures last { (ns : List Other) → keys_of self.old.index ≡ ns ++ name.now ∷ [] → is_used (changed change conn (line_of self.old name.now)) ≡ false → keys_of self.new.index ≡ ns }
    {
        if let Some(key) = find(&self.index, name) {
            change_at(&mut self.queues, key, conn, change);
            sweep(&mut self.index, &mut self.queues, name, key);
        }
    }
}
