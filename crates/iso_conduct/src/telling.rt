//! What each answer makes of a task.

ghost use Rattle.std.specs.Prelude.{◌≡◌, ◌<◌, ◌^◌, ◌++◌, [], ◌&&◌, true, false, ◌+◌, Some, length, OnOk, OnErr, IfOk, List, if◌then◌else◌, map, nat_lt};
ghost use Rattle.std.specs.List.{list_all};
ghost use Rattle.iso_types.specs.Value.{value_eq};
ghost use Rattle.iso_predicate.specs.Truth.{is_within, value_at};
ghost use Rattle.iso_conduct.specs.Parts.{Part};
ghost use Rattle.iso_conduct.specs.Points as point;
ghost use Rattle.iso_conduct.specs.Answers.{answers};
ghost use Rattle.iso_conduct.specs.Points.{due, told_point};
ghost use Rattle.iso_conduct.specs.declared.moves.Told.{Told};
ghost use Rattle.iso_conduct.specs.Courses.{key_within, reads_within, suits, scan_slot, with_front, haul_size, MayTell, takes_memory, with_left, IsSound, columns_in, point_of, staged};
ghost use Rattle.iso_conduct.specs.Parts.Part.{Claims};
ghost use Rattle.iso_conduct.specs.declared.course.Stage.{Stage};
ghost use Rattle.iso_conduct.specs.declared.course.Front.{Front};

use crate::course::{Course, Found, Front, Place, Stage};
use crate::moves::Told;
use iso_history::Want;
use iso_predicate::keep;
use iso_sql::{Condition, Items2, Statement};
use iso_types::{Items, Memory, Rid, Row, Value};
use std::alloc::Global;

/// A look of this want gives a Fresh lock back where its row is not kept.
fn frees(want: Want) -> bool
    ensures { result ≡ point.frees want }
{
    match want {
        Want::Steady => true,
        Want::Alter => true,
        _ => false,
    }
}

fn meets(cond: &Condition, row: &Row) -> bool
    requires { is_within (length row.now) cond.now ≡ true }
    ensures { result ≡ point.meets cond.now row.now }
{
    keep(cond, row)
}

#[tactic(auto, unfolding(iso_types::specs::Value::value_eq))]
fn is_key(key: &Value, value: &Value) -> bool
    ensures { result ≡ value_eq value.now key.now }
{
    *value == *key
}

/// The columns of a row in these places.
fn projected(alloc: Global, columns: &Items<u8>, row: &Row) -> Result<Row, Memory>
    requires { list_all (λ k. nat_lt k (length row.now)) columns.now ≡ true }
    ensures { IfOk result (λ given. given ≡ map (value_at row.now) columns.now) }
{
    let mut values = Vec::new(alloc);
    for column in columns.as_slice() {
        values.push(row.as_slice()[*column as usize])?;
    }
    Row::of(alloc, values.as_slice())
}

impl Course {
    /// The row at which the scan looks.
    fn look_rid(&self) -> Rid
        requires stage { self.now.stage ≡ Stage.Scan }
        requires front { self.now.front ≡ Front.Nothing }
        ensures { result ≡ point.look_rid (point_of self.now).left }
    {
        match &self.place {
            Place::Slot(rid) => Rid(*rid),
            Place::Entry(_, rid) => *rid,
            Place::Behind(_) => Rid(0),
        }
    }

    /// In an index scan the row's key is the entry's.
    fn has_key(&self, row: &Row) -> bool
        requires stage { self.now.stage ≡ Stage.Scan }
        requires front { self.now.front ≡ Front.Nothing }
        requires within { key_within (point_of self.now).left row.now ≡ true }
        ensures { result ≡ point.has_entry_key (point_of self.now).left row.now }
    {
        match &self.place {
            Place::Entry(key, _) => is_key(key, &row.as_slice()[self.walk.column as usize]),
            _ => true,
        }
    }

    /// The row meets the condition.
    fn meets(&self, row: &Row) -> bool
        requires { reads_within self.now.statement (columns_in self.now.updates) row.now ≡ true }
        ensures { result ≡ point.meets_in self.now.statement row.now }
    {
        match &self.statement {
            Statement::Select { cond, .. } => meets(cond, row),
            Statement::Update { cond, .. } => meets(cond, row),
            Statement::Delete { cond, .. } => meets(cond, row),
            _ => false,
        }
    }

    /// The shown row is to be kept.
    fn keeps(&self, row: &Row) -> bool
        requires stage { self.now.stage ≡ Stage.Scan }
        requires front { self.now.front ≡ Front.Nothing }
        requires suits { suits (point_of self.now) row.now ≡ true }
        ensures { result ≡ point.is_kept (point_of self.now) (Some row.now) }
    {
        self.has_key(row) && self.meets(row)
    }

    /// The scan after a look.
    fn pass(&mut self)
        requires stage { self.old.stage ≡ Stage.Scan }
        requires small { scan_slot (staged self.old) + 1 < 2 ^ 32 }
        ensures rest { self.new ≡ record self.old { place = self.new.place } }
        ensures left { staged self.new ≡ point.past_look (staged self.old) }
    {
        match &self.place {
            Place::Slot(rid) => {
                let next = *rid + 1;
                self.place = Place::Slot(next);
            }
            Place::Entry(key, rid) => {
                let behind = Place::Behind(Some((*key, *rid)));
                self.place = behind;
            }
            Place::Behind(_) => {}
        }
    }

    /// The Free after a look whose row is not kept.
    fn free_after(&self, fresh: bool) -> Front
        requires stage { self.now.stage ≡ Stage.Scan }
        requires front { self.now.front ≡ Front.Nothing }
        ensures { (ps : List Part) → with_front self.now.walk.table result ps ≡ (if fresh then point.freeing (point_of self.now).left else []) ++ ps }
    {
        if !fresh || !frees(self.walk.want) {
            return Front::Nothing;
        }
        match &self.place {
            Place::Slot(rid) => Front::Frees(Rid(*rid)),
            Place::Entry(_, rid) => Front::Frees(*rid),
            Place::Behind(_) => Front::Nothing,
        }
    }
}

impl Course {
    /// The shown row is kept, as the statement keeps it.
    fn take_row(&mut self, alloc: Global, row: Row) -> Result<(), Memory>
        requires sound { IsSound self.old }
        requires stage { self.old.stage ≡ Stage.Scan }
        requires front { self.old.front ≡ Front.Nothing }
        requires suits { suits (point_of self.old) row ≡ true }
        requires few { haul_size (point_of self.old).kept + 1 < 2 ^ 32 }
        ensures point { OnOk result (point_of self.new ≡ record (point_of self.old) { kept = point.kept_with (point_of self.old) (Some row) }) }
        ensures rest { staged self.new ≡ staged self.old }
        ensures stage { self.new.stage ≡ Stage.Scan }
        ensures front { self.new.front ≡ Front.Nothing }
        ensures sound { IsSound self.new }
    {
        let rid = self.look_rid();
        match self.tally {
            Some(count) => self.tally = Some(count + 1),
            None => match &self.statement {
                Statement::Select {
                    items: Items2::Columns(columns),
                    ..
                } => {
                    let given = projected(alloc, columns, &row)?;
                    self.rows.push(given)?;
                }
                Statement::Select { .. } => self.rows.push(row)?,
                _ => self.found.push(Found { rid, row })?,
            },
        }
        Ok(())
    }
}

impl Course {
    /// A look whose row is kept.
    fn look_kept(&mut self, alloc: Global, row: Row) -> Result<(), Memory>
        requires sound { IsSound self.old }
        requires stage { self.old.stage ≡ Stage.Scan }
        requires front { self.old.front ≡ Front.Nothing }
        requires suits { suits (point_of self.old) row ≡ true }
        requires small { scan_slot (point_of self.old).left + 1 < 2 ^ 32 }
        requires few { haul_size (point_of self.old).kept + 1 < 2 ^ 32 }
        ensures point { OnOk result (point_of self.new ≡ record (point_of self.old) { left = point.past_look (point_of self.old).left; kept = point.kept_with (point_of self.old) (Some row) }) }
        ensures sound { IsSound self.new }
    {
        self.take_row(alloc, row)?;
        self.pass();
        Ok(())
    }

    /// A look of which nothing is kept.
    fn look_left(&mut self, fresh: bool)
        requires sound { IsSound self.old }
        requires stage { self.old.stage ≡ Stage.Scan }
        requires front { self.old.front ≡ Front.Nothing }
        requires small { scan_slot (point_of self.old).left + 1 < 2 ^ 32 }
        ensures point { point_of self.new ≡ with_left (point_of self.old) ((if fresh then point.freeing (point_of self.old).left else []) ++ point.past_look (point_of self.old).left) }
        ensures sound { IsSound self.new }
    {
        let front = self.free_after(fresh);
        self.pass();
        self.front = front;
    }

    /// A row was looked at.
    fn look_done(&mut self, alloc: Global, shown: Option<Row>, fresh: bool) -> Result<(), Memory>
        requires sound { IsSound self.old }
        requires stage { self.old.stage ≡ Stage.Scan }
        requires front { self.old.front ≡ Front.Nothing }
        requires may { MayTell (point_of self.old) (Told.Shown shown fresh) }
        ensures point { OnOk result (point_of self.new ≡ point.looked (point_of self.old) shown fresh) }
        ensures sound { IsSound self.new }
    {
        match shown {
            Some(row) => {
                if self.keeps(&row) {
                    self.look_kept(alloc, row)?;
                } else {
                    self.look_left(fresh);
                }
            }
            None => self.look_left(fresh),
        }
        Ok(())
    }

    /// What the step of the stage answered.
    fn told_stage(&mut self, alloc: Global, outcome: Told) -> Result<(), Memory>
        requires sound { IsSound self.old }
        requires front { self.old.front ≡ Front.Nothing }
        requires may { MayTell (point_of self.old) outcome }
        requires answers { answers (point.due_by (point_of self.old).kept (staged self.old)) outcome ≡ true }
        ensures point { OnOk result (point_of self.new ≡ told_point (point_of self.old) outcome) }
        ensures sound { IsSound self.new }
        ensures err { OnErr result (takes_memory (point_of self.old) outcome ≡ true) }
    {
        match outcome {
            Told::Done => self.stage_done(alloc)?,
            Told::Granted => self.stage_done(alloc)?,
            Told::Queued => self.queue(),
            Told::TimedOut => self.roll(68),
            Told::Blocked => self.front = Front::Claims,
            Told::Ended(reason) => self.roll(reason),
            Told::Escalates(table) => self.front = Front::Collapses(table),
            Told::Refused(code) => self.fail(code),
            Told::Shown(shown, fresh) => self.look_done(alloc, shown, fresh)?,
            Told::EndOfTable => self.scan_done(),
            Told::Past => self.scan_done(),
            Told::At(key, rid) => self.stand_at(key, rid),
            Told::Undone(more) => {
                if !more {
                    self.undos_done();
                }
            }
            Told::Floor(mark) => self.back_to(mark),
        }
        Ok(())
    }

    /// What the step that is due answered.
    pub fn told(&mut self, alloc: Global, outcome: Told) -> Result<(), Memory>
        requires sound { IsSound self.old }
        requires may { MayTell (point_of self.old) outcome }
        requires answers { answers (due (point_of self.old)) outcome ≡ true }
        ensures point { OnOk result (point_of self.new ≡ told_point (point_of self.old) outcome) }
        ensures sound { IsSound self.new }
        ensures err { OnErr result (takes_memory (point_of self.old) outcome ≡ true) }
    {
        match self.front {
            Front::Nothing => self.told_stage(alloc, outcome)?,
            Front::Frees(_) => self.front = Front::Nothing,
            Front::Collapses(table) => match outcome {
                Told::Queued => self.front = Front::ClaimsCollapses(table),
                _ => self.front = Front::Nothing,
            },
            Front::Claims => match outcome {
                Told::Ended(reason) => self.roll(reason),
                _ => self.granted(alloc)?,
            },
            Front::ClaimsCollapses(table) => match outcome {
                Told::Ended(reason) => self.roll(reason),
                _ => self.front = Front::Collapses(table),
            },
        }
        Ok(())
    }
}
