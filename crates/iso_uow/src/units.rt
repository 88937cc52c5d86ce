ghost use Rattle.std.specs.Prelude.{◌≡◌, ◌≢◌, ◌+◌, ◌<◌, ◌≤◌, length, replicate, Some, None, OnOk, OnErr, IfOk, IsSome, unwrap_or};
ghost use Rattle.std.specs.Option.{option_map};
ghost use Rattle.iso_uow.specs.Book.{count_of, debt_of, first_added, floor_at, last_of, lesser, new_work, no_work, oldest_of, own, with_added, with_marks, with_undone, with_work, work_at};
ghost use Rattle.iso_uow.specs.Savepoints.{down_to, floor_of, set_again};

use crate::marks::Marks;
use iso_types::{Conn, Memory, Text};
use std::alloc::Global;
use std::marker::Model;

/// An open unit: its number, its first record, the last and the number of those that are not undone, and its savepoints.
#[derive(Drop)]
pub struct Work {
    pub number: u32,
    pub first: Option<u32>,
    pub last: Option<u32>,
    pub count: u32,
    pub marks: Marks,
}

/// The open unit of each connection, and the number of units begun. What all of them have to undo, and the least of their
/// first records, are kept beside them.
#[derive(Drop)]
pub struct Units {
    alloc: Global,
    begun: u32,
    debt: u32,
    oldest: Option<u32>,
    works: Vec<Option<Work>>,
}

impl Model for Units {
    ghost use Rattle.std.specs.Prelude.{◌≡◌};
    ghost use Rattle.iso_uow.specs.Book.{Book, debt_of, oldest_of};

    ghost Value = { Book };

    ghost view = { λ u. record { begun = u.begun; works = u.works.items } };

    ghost invariant = { λ u. (u.debt ≡ debt_of u.works.items) × (u.oldest ≡ oldest_of u.works.items) };
}

/// No open unit, for each connection.
fn no_works(alloc: Global, conns: u8) -> Result<Vec<Option<Work>>, Memory>
    ensures { IfOk result (λ works. works.items ≡ replicate conns None) }
{
    let mut works = Vec::new(alloc);
    for _ in 0..conns {
        works.push(None)?;
    }
    Ok(works)
}

impl Units {
    /// No open unit, for so many connections; `Memory` where there is none.
    pub fn new(alloc: Global, conns: u8) -> Result<Units, Memory>
        ensures begun { IfOk result (λ u. u.begun ≡ 0) }
        ensures works { IfOk result (λ u. u.works ≡ replicate conns None) }
    {
        Ok(Units {
            alloc,
            begun: 0,
            debt: 0,
            oldest: None,
            works: no_works(alloc, conns)?,
        })
    }

    /// Begins the next unit. It takes no memory.
    pub fn begin(&mut self, conn: Conn) -> u32
        requires conn { conn.0 < length self.old.works }
        requires none { work_at self.old.works conn ≡ None }
        requires few { self.old.begun < 4294967295 }
        ensures number { result ≡ self.old.begun + 1 }
        ensures begun { self.new.begun ≡ self.old.begun + 1 }
        ensures works { self.new.works ≡ with_work self.old.works conn (Some (new_work (self.old.begun + 1))) }
    {
        self.begun += 1;
        self.works[conn.0 as usize] = Some(Work {
            number: self.begun,
            first: None,
            last: None,
            count: 0,
            marks: Marks::new(self.alloc),
        });
        self.begun
    }

    /// The number of the connection's open unit.
    pub fn unit(&self, conn: Conn) -> Option<u32>
        requires { conn.0 < length self.now.works }
        ensures { result ≡ option_map (λ w. w.number) (work_at self.now.works conn) }
    {
        match &self.works[conn.0 as usize] {
            Some(work) => Some(work.number),
            None => None,
        }
    }

    /// The last record of the connection's open unit that is not undone.
    pub fn last(&self, conn: Conn) -> Option<u32>
        requires { conn.0 < length self.now.works }
        ensures { result ≡ last_of (work_at self.now.works conn) }
    {
        match &self.works[conn.0 as usize] {
            Some(work) => work.last,
            None => None,
        }
    }

    /// The number of records of the log at the open unit's savepoint of this name; None exactly where it has none. It costs as
    /// `Marks::floor`.
    pub fn floor(&self, conn: Conn, name: Text) -> Option<u32>
        requires { conn.0 < length self.now.works }
        ensures { result ≡ floor_at (work_at self.now.works conn) name }
    {
        match &self.works[conn.0 as usize] {
            Some(work) => work.marks.floor(name),
            None => None,
        }
    }

    /// Sets a savepoint of the open unit; one of the same name moves. After `Memory` all is as before. It costs as `Marks::set`.
    /// Db2 LUW, 'SAVEPOINT statement'.
    pub fn mark(&mut self, conn: Conn, name: Text, at: u32) -> Result<(), Memory>
        requires conn { conn.0 < length self.old.works }
        requires has_unit { IsSome (work_at self.old.works conn) }
        ensures begun { self.new.begun ≡ self.old.begun }
        ensures ok { OnOk result (self.new.works ≡ with_work self.old.works conn (Some (with_marks (own self.old.works conn) (set_again (own self.old.works conn).marks name at)))) }
        ensures err { OnErr result (self.new.works ≡ self.old.works) }
    {
        match &mut self.works[conn.0 as usize] {
            Some(work) => work.marks.set(name, at),
            None => unreachable!(),
        }
    }

    /// The savepoints of the open unit that were set later than this one go. It costs as `Marks::back`.
    /// Db2 LUW, 'ROLLBACK statement'.
    pub fn back(&mut self, conn: Conn, name: Text)
        requires conn { conn.0 < length self.old.works }
        requires has_unit { IsSome (work_at self.old.works conn) }
        ensures begun { self.new.begun ≡ self.old.begun }
        ensures works { self.new.works ≡ with_work self.old.works conn (Some (with_marks (own self.old.works conn) (down_to name (own self.old.works conn).marks))) }
    {
        match &mut self.works[conn.0 as usize] {
            Some(work) => work.marks.back(name),
            None => unreachable!(),
        }
    }

    /// The connection's unit ends. The least first record is sought anew among those of the other connections.
    pub fn finish(&mut self, conn: Conn)
        requires conn { conn.0 < length self.old.works }
        ensures begun { self.new.begun ≡ self.old.begun }
        ensures works { self.new.works ≡ with_work self.old.works conn None }
    {
        self.debt -= owed_by(&self.works[conn.0 as usize]);
        self.works[conn.0 as usize] = None;
        self.oldest = oldest_in(self.works.as_slice());
    }

    /// The open unit has one more record, which is its last.
    pub fn added(&mut self, conn: Conn, number: u32)
        requires conn { conn.0 < length self.old.works }
        requires has_unit { IsSome (work_at self.old.works conn) }
        requires few { debt_of self.old.works < 4294967295 }
        ensures begun { self.new.begun ≡ self.old.begun }
        ensures works { self.new.works ≡ with_work self.old.works conn (Some (with_added (own self.old.works conn) number)) }
    {
        let first = add_record(&mut self.works[conn.0 as usize], number);
        self.oldest = lesser_of(self.oldest, first);
        self.debt += 1;
    }

    /// A record of the open unit is undone, and another one is its last.
    pub fn undone(&mut self, conn: Conn, last: Option<u32>)
        requires conn { conn.0 < length self.old.works }
        requires has_unit { IsSome (work_at self.old.works conn) }
        requires some { 1 ≤ (own self.old.works conn).count }
        ensures begun { self.new.begun ≡ self.old.begun }
        ensures works { self.new.works ≡ with_work self.old.works conn (Some (with_undone (own self.old.works conn) last)) }
    {
        match &mut self.works[conn.0 as usize] {
            Some(work) => {
                work.last = last;
                work.count -= 1;
            }
            None => unreachable!(),
        }
        self.debt -= 1;
    }

    /// The number of records of open units that are not undone. It is kept, not counted.
    pub fn debt(&self) -> u32
        ensures { result ≡ debt_of self.now.works }
    {
        self.debt
    }

    /// The least first record of an open unit; None exactly where no open unit has a record. It is kept, not sought.
    pub fn oldest(&self) -> Option<u32>
        ensures { result ≡ oldest_of self.now.works }
    {
        self.oldest
    }
}

/// The number of records that a connection's unit has to undo.
fn owed_by(work: &Option<Work>) -> u32
    ensures { result ≡ count_of work.now }
{
    match work {
        Some(work) => work.count,
        None => 0,
    }
}

/// The open unit has one more record, which is its last; its number where it is the unit's first, else None.
fn add_record(work: &mut Option<Work>, number: u32) -> Option<u32>
    requires has_unit { IsSome work.old }
    requires few { count_of work.old < 4294967295 }
    ensures work { work.new ≡ Some (with_added (unwrap_or work.old no_work) number) }
    ensures first { result ≡ first_added work.old number }
{
    match work {
        Some(work) => {
            work.last = Some(number);
            work.count += 1;
            if work.first.is_some() {
                return None;
            }
            work.first = Some(number);
            Some(number)
        }
        None => unreachable!(),
    }
}

/// The lesser of two, where there are both.
fn lesser_of(a: Option<u32>, b: Option<u32>) -> Option<u32>
    ensures { result ≡ lesser a b }
{
    match (a, b) {
        (None, b) => b,
        (Some(a), None) => Some(a),
        (Some(a), Some(b)) => Some(a.min(b)),
    }
}

/// The least first record of these units.
fn oldest_in(works: &[Option<Work>]) -> Option<u32>
    ensures { result ≡ oldest_of works.now }
{
    let mut oldest = None;
    for work in works {
        if let Some(work) = work {
            oldest = lesser_of(oldest, work.first);
        }
    }
    oldest
}
