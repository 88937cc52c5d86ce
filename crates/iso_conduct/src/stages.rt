//! How a task goes from one stage to the next.

ghost use Rattle.std.specs.Prelude.{◌≡◌, ◌<◌, ◌++◌, ◌∷◌, [], drop, ◌≢◌, ◌&&◌, true, false, ◌+◌, Some, length, OnOk, OnErr, if◌then◌else◌};
ghost use Rattle.iso_conduct.specs.Points as point;
ghost use Rattle.iso_predicate.specs.Assigned.{Answers, assigned};
ghost use Rattle.iso_conduct.specs.Courses.{asks_row, is_row_change, is_undo, is_back, KeptFits, with_left, IsAfterLock, IsSound, IsSoundAt, after_lock, after_scan, changes, columns_in, found_at, is_row_lock, is_update, left_with, pairs_of, part_of, point_of, sets_of, staged};
ghost use Rattle.iso_conduct.specs.Parts.{failing_list, rolling_list};
ghost use Rattle.iso_conduct.specs.Parts.Part.{Answer, Claims};
ghost use Rattle.iso_conduct.specs.Points.{change_parts};
ghost use Rattle.iso_conduct.specs.declared.course.Stage.{Stage};
ghost use Rattle.iso_conduct.specs.declared.course.Front.{Front};

use crate::course::{Course, End, Front, Place, Stage, Then};
use iso_predicate::{AssignFault, assign};
use iso_sql::Statement;
use iso_types::{Memory, Rid, Row, Value};
use std::alloc::Global;

impl Course {
    /// The unit has to end.
    pub(crate) fn roll(&mut self, reason: u8)
        requires sound { IsSound self.old }
        ensures point { point_of self.new ≡ record (point_of self.old) { left = rolling_list reason } }
        ensures sound { IsSound self.new }
    {
        self.stage = Stage::Undos(0, End::Leaves(-911, reason));
        self.front = Front::Nothing;
    }

    /// The statement is refused.
    pub(crate) fn fail(&mut self, code: i32)
        requires sound { IsSound self.old }
        ensures point { point_of self.new ≡ record (point_of self.old) { left = failing_list self.old.floor code } }
        ensures sound { IsSound self.new }
    {
        self.stage = Stage::Undos(self.floor, End::Replies(code, 0));
        self.front = Front::Nothing;
    }

    /// The change of the next kept row, or the reply.
    fn row_stage(&self, at: usize) -> Stage
        requires { changes self.now.statement ≡ true }
        ensures left { left_with self.now result ≡ change_parts self.now.statement (columns_in self.now.updates) self.now.table (pairs_of (drop at self.now.found)) ++ Answer ∷ [] }
        ensures sound { IsSoundAt result self.now }
    {
        if at < self.found.len() {
            Stage::RowLock(at)
        } else {
            Stage::Answer
        }
    }

    /// What follows the scan.
    fn scanned_stage(&self) -> Stage
        requires { IsSound self.now }
        ensures left { left_with self.now result ≡ point.opened_out (point_of self.now) (after_scan self.now.table self.now.statement) }
        ensures sound { IsSoundAt result self.now }
    {
        match &self.statement {
            Statement::Update { .. } => self.row_stage(0),
            Statement::Delete { .. } => self.row_stage(0),
            _ => Stage::Answer,
        }
    }

    /// The scan is over.
    pub(crate) fn scan_done(&mut self)
        requires stage { self.old.stage ≡ Stage.Scan }
        requires front { self.old.front ≡ Front.Nothing }
        requires sound { IsSound self.old }
        ensures point { point_of self.new ≡ record (point_of self.old) { left = point.opened_out (point_of self.old) (point.behind (point_of self.old).left) } }
        ensures sound { IsSound self.new }
    {
        self.stage = self.scanned_stage();
    }

    /// What follows the lock of the table.
    fn locked_stage(&self, next: Then) -> Stage
        requires { IsAfterLock self.now.statement next }
        ensures left { left_with self.now result ≡ after_lock self.now.table self.now.statement (part_of self.now.walk self.now.place) next }
        ensures sound { IsSoundAt result self.now }
    {
        match next {
            Then::Scan => Stage::Scan,
            Then::NewRow => Stage::NewRow,
            Then::NoRow => Stage::NoRow,
            Then::Reply => Stage::Ends(End::Replies(0, 0)),
        }
    }

    /// What follows the stage, once its step is done.
    fn next_stage(&self) -> Stage
        requires not_scan { self.now.stage ≢ Stage.Scan }
        requires not_lock { is_row_lock self.now.stage ≡ false }
        requires front { self.now.front ≡ Front.Nothing }
        requires sound { IsSound self.now }
        ensures left { left_with self.now result ≡ point.behind (staged self.now) }
        ensures sound { IsSoundAt result self.now }
    {
        match &self.stage {
            Stage::Lock(_, then) => self.locked_stage(*then),
            Stage::RowChange(at) => self.row_stage(*at + 1),
            Stage::NewRow => Stage::Ends(End::Replies(0, 1)),
            Stage::NoRow => Stage::Ends(End::Replies(0, 1)),
            Stage::Marks(_) => Stage::Ends(End::Replies(0, 0)),
            Stage::Backs(_) => Stage::Ends(End::Replies(0, 0)),
            Stage::Sets(_, _) => Stage::Ends(End::Replies(0, 0)),
            Stage::Undos(_, end) => Stage::Ends(*end),
            _ => Stage::Over,
        }
    }

    /// What is left once a step that was queued is claimed: after a lock that was asked for what follows
    /// it, else the same step.
    fn queued_stage(&self) -> Stage
        requires sound { IsSound self.now }
        requires front { self.now.front ≡ Front.Nothing }
        ensures left { Claims ∷ left_with self.now result ≡ point.queued_up (staged self.now) }
        ensures sound { IsSoundAt result (record self.now { front = Front.Claims }) }
    {
        match &self.stage {
            Stage::Lock(_, then) => self.locked_stage(*then),
            Stage::RowLock(at) => Stage::RowWait(*at),
            other => *other,
        }
    }

    /// The step is queued.
    pub(crate) fn queue(&mut self)
        requires sound { IsSound self.old }
        requires front { self.old.front ≡ Front.Nothing }
        ensures point { point_of self.new ≡ record (point_of self.old) { left = point.queued_up (point_of self.old).left } }
        ensures sound { IsSound self.new }
    {
        self.stage = self.queued_stage();
        self.front = Front::Claims;
    }
}

impl Course {
    /// The row that the assignments of an UPDATE make of a kept one.
    fn assigned_row(&self, alloc: Global, at: usize) -> Result<Row, AssignFault>
        requires sound { IsSound self.now }
        requires at { at < length self.now.found }
        ensures { Answers (assigned (columns_in self.now.updates) (sets_of self.now.statement) (found_at self.now.found at).row) result }
    {
        let row = self.row_at(at);
        match (&self.statement, &self.updates) {
            (Statement::Update { sets, .. }, Some(table)) => assign(alloc, sets, table, row),
            _ => Err(AssignFault::Memory),
        }
    }

    /// A kept row.
    fn row_at(&self, at: usize) -> &Row
        requires sound { IsSound self.now }
        requires at { at < length self.now.found }
        ensures row { result.now ≡ (found_at self.now.found at).row }
        ensures fits { KeptFits self.now.statement self.now.updates result.now }
    {
        &self.found.as_slice()[at].row
    }

    /// The lock on a kept row is there: an UPDATE works out its change.
    fn work_out(&mut self, alloc: Global, at: usize) -> Result<(), Memory>
        requires sound { IsSound self.old }
        requires at { at < length self.old.found }
        requires changes { changes self.old.statement ≡ true }
        ensures point { OnOk result (point_of self.new ≡ with_left (point_of self.old) (left_with self.old (Stage.RowWait at))) }
        ensures sound { IsSound self.new }
        ensures err { OnErr result (is_update self.old.statement ≡ true) }
    {
        if let Statement::Update { .. } = &self.statement {
            match self.assigned_row(alloc, at) {
                Ok(row) => {
                    self.assigned = row;
                    self.fault = None;
                }
                Err(AssignFault::Overflow) => self.fault = Some(-802),
                Err(AssignFault::NullFault) => self.fault = Some(-407),
                Err(AssignFault::Memory) => return Err(Memory),
            }
        }
        self.stage = Stage::RowChange(at);
        self.front = Front::Nothing;
        Ok(())
    }
}

impl Course {
    /// A step that was waited for is granted.
    pub(crate) fn granted(&mut self, alloc: Global) -> Result<(), Memory>
        requires sound { IsSound self.old }
        requires front { self.old.front ≡ Front.Claims }
        ensures point { OnOk result (point_of self.new ≡ with_left (point_of self.old) (point.behind (point_of self.old).left)) }
        ensures sound { IsSound self.new }
        ensures err { OnErr result ((is_update self.old.statement && is_row_change (staged self.old)) ≡ true) }
    {
        match self.stage {
            Stage::RowWait(at) => self.work_out(alloc, at)?,
            _ => self.front = Front::Nothing,
        }
        Ok(())
    }

    /// The step of the stage is done.
    pub(crate) fn stage_done(&mut self, alloc: Global) -> Result<(), Memory>
        requires sound { IsSound self.old }
        requires front { self.old.front ≡ Front.Nothing }
        requires stage { self.old.stage ≢ Stage.Scan }
        ensures point { OnOk result (point_of self.new ≡ with_left (point_of self.old) (point.behind (point_of self.old).left)) }
        ensures sound { IsSound self.new }
        ensures err { OnErr result ((is_update self.old.statement && asks_row (staged self.old)) ≡ true) }
    {
        match self.stage {
            Stage::RowLock(at) => self.work_out(alloc, at)?,
            _ => self.stage = self.next_stage(),
        }
        Ok(())
    }

    /// The scan stands at this entry.
    pub(crate) fn stand_at(&mut self, key: Value, rid: Rid)
        requires stage { self.old.stage ≡ Stage.Scan }
        requires front { self.old.front ≡ Front.Nothing }
        requires sound { IsSound self.old }
        ensures point { point_of self.new ≡ with_left (point_of self.old) (point.standing_at key rid (point_of self.old).left) }
        ensures sound { IsSound self.new }
    {
        if let Place::Behind(_) = &self.place {
            self.place = Place::Entry(key, rid);
        }
    }

    /// Nothing is left to undo.
    pub(crate) fn undos_done(&mut self)
        requires stage { is_undo self.old.stage ≡ true }
        requires front { self.old.front ≡ Front.Nothing }
        requires sound { IsSound self.old }
        ensures point { point_of self.new ≡ with_left (point_of self.old) (point.ending (point_of self.old).left) }
        ensures sound { IsSound self.new }
    {
        if let Stage::Undos(_, end) = self.stage {
            self.stage = Stage::Ends(end);
        }
    }

    /// The mark is found, with its floor, or there is none.
    pub(crate) fn back_to(&mut self, mark: Option<u32>)
        requires stage { is_back self.old.stage ≡ true }
        requires front { self.old.front ≡ Front.Nothing }
        requires sound { IsSound self.old }
        ensures point { point_of self.new ≡ with_left (point_of self.old) (point.backed_up mark (point_of self.old).left) }
        ensures sound { IsSound self.new }
    {
        self.stage = match mark {
            Some(floor) => Stage::Undos(floor, End::Replies(0, 0)),
            None => Stage::NoMark,
        };
    }
}
