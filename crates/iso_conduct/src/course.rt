//! The inside of a task: a statement, how far it is, and the step that is due.

ghost use Rattle.std.specs.Prelude.{◌≡◌, ◌<◌, ◌∷◌, [], true, Some, length, IfSome};
ghost use Rattle.iso_conduct.specs.Points as point;
ghost use Rattle.iso_predicate.specs.Assigned.{assigned};
ghost use Rattle.iso_conduct.specs.Points.{due};
ghost use Rattle.iso_conduct.specs.Courses.{inserts, inserted, is_write, IsSound, change_of, found_at, part_of, point_of, staged};
ghost use Rattle.iso_conduct.specs.Parts.Part.{Answer, Claims};
ghost use Rattle.iso_conduct.specs.declared.course.Stage.{Stage};
ghost use Rattle.iso_conduct.specs.declared.course.Front.{Front};
ghost use Rattle.iso_conduct.specs.declared.moves.Move.{Move};

use crate::moves::{DueLook, DueNext, Move};
use iso_history::Want;
use iso_modes::Mode;
use iso_sql::Statement;
use iso_types::{
    IndexId, Isolation, Items, Name, Range, Rid, Row, Rows, TableDef, TableId, Text, Value,
};
use std::alloc::Global;
use std::mem;

/// What a scan goes through: the slots of a table, or the entries of an index with keys in a range.
#[derive(Clone, Copy)]
pub struct Walk {
    pub table: TableId,
    pub want: Want,
    pub index: IndexId,
    pub column: u8,
    pub range: Range,
    pub guarded: bool,
}

/// Where a scan stands: at a slot, behind an entry, or at one.
#[derive(Clone, Copy)]
pub enum Place {
    Slot(u32),
    Behind(Option<(Value, Rid)>),
    Entry(Value, Rid),
}

/// What ends a statement: a reply without rows, or a rollback.
#[derive(Clone, Copy)]
pub enum End {
    Replies(i32, u32),
    Leaves(i32, u8),
}

/// What follows the lock of a table.
#[derive(Clone, Copy)]
pub enum Then {
    Scan,
    NewRow,
    NoRow,
    Reply,
}

/// Which part of its list a statement is at. A wait for a row's lock is a stage of its own, since the
/// change of that row is worked out once the lock is there.
#[derive(Clone, Copy)]
pub enum Stage {
    Lock(Mode, Then),
    Scan,
    RowLock(usize),
    RowWait(usize),
    RowChange(usize),
    NewRow,
    NoRow,
    Marks(Text),
    Backs(Text),
    NoMark,
    Sets(Isolation, bool),
    Undos(u32, End),
    Ends(End),
    Answer,
    Settles,
    Over,
}

/// What stands in front of the stage.
#[derive(Clone, Copy)]
pub enum Front {
    Nothing,
    Claims,
    Collapses(TableId),
    ClaimsCollapses(TableId),
    Frees(Rid),
}

/// A row that the scan of an UPDATE or DELETE kept.
#[derive(Drop)]
pub struct Found {
    pub rid: Rid,
    pub row: Row,
}

/// The inside of a task: a statement and how far it is. What it updates is known of an UPDATE alone;
/// a row to write is the assigned one, or its fault has this code.
#[derive(Drop)]
pub struct Course {
    pub statement: Statement,
    pub updates: Option<TableDef>,
    pub table: TableId,
    pub floor: u32,
    pub walk: Walk,
    pub place: Place,
    pub front: Front,
    pub stage: Stage,
    pub tally: Option<u32>,
    pub rows: Rows,
    pub found: Items<Found>,
    pub assigned: Row,
    pub fault: Option<i32>,
}

impl Course {
    /// The rid of a kept row.
    fn rid_at(&self, at: usize) -> Rid
        requires { at < length self.now.found }
        ensures { result ≡ (found_at self.now.found at).rid }
    {
        self.found.as_slice()[at].rid
    }

    /// The step of the scan.
    fn look_due(&self) -> Move
        ensures { result ≡ point.due_by (point_of self.now).kept (part_of self.now.walk self.now.place ∷ []) }
    {
        let walk = &self.walk;
        match &self.place {
            Place::Slot(rid) => Move::Look {
                table: walk.table,
                rid: Rid(*rid),
                want: walk.want,
            },
            Place::Entry(_, rid) => Move::Look {
                table: walk.table,
                rid: *rid,
                want: walk.want,
            },
            Place::Behind(after) => Move::Next {
                index: walk.index,
                range: walk.range,
                after: *after,
                guarded: walk.guarded,
            },
        }
    }

    /// The change of a kept row.
    fn change_due(&self, rid: Rid) -> Move
        ensures { result ≡ point.due_by (point_of self.now).kept (change_of self.now rid ∷ []) }
    {
        match &self.statement {
            Statement::Update { .. } => match self.fault {
                Some(code) => Move::Refuse { code },
                None => Move::Update {
                    table: self.table,
                    rid,
                },
            },
            _ => Move::Delete {
                table: self.table,
                rid,
            },
        }
    }

    /// The reply with what the scan kept.
    fn reply_due(&self) -> Move
        requires { IsSound self.now }
        ensures { result ≡ Move.Reply (point.haul_code (point_of self.now).kept) (point.haul_changed (point_of self.now).kept) }
    {
        match self.tally {
            Some(_) => Move::Reply {
                code: 0,
                changed: 0,
            },
            None => match &self.statement {
                Statement::Select { .. } => Move::Reply {
                    code: if self.rows.len() == 0 { 100 } else { 0 },
                    changed: 0,
                },
                _ => Move::Reply {
                    code: if self.found.len() == 0 { 100 } else { 0 },
                    changed: self.found.len() as u32,
                },
            },
        }
    }

    /// The step of the stage.
    fn stage_due(&self) -> Move
        requires sound { IsSound self.now }
        requires front { self.now.front ≡ Front.Nothing }
        ensures { result ≡ point.due_by (point_of self.now).kept (staged self.now) }
    {
        match &self.stage {
            Stage::Lock(mode, _) => Move::Lock {
                name: Name::Table(self.table),
                mode: *mode,
            },
            Stage::Scan => self.look_due(),
            Stage::RowLock(at) => Move::Lock {
                name: Name::Row(self.table, self.rid_at(*at)),
                mode: Mode::X,
            },
            Stage::RowWait(_) => Move::Claim,
            Stage::RowChange(at) => self.change_due(self.rid_at(*at)),
            Stage::NewRow => Move::Insert { table: self.table },
            Stage::NoRow => Move::Refuse { code: -407 },
            Stage::Marks(name) => Move::Mark { name: *name },
            Stage::Backs(name) => Move::Back { name: *name },
            Stage::NoMark => Move::Refuse { code: -880 },
            Stage::Sets(level, may_wait) => Move::Set {
                level: *level,
                may_wait: *may_wait,
            },
            Stage::Undos(floor, _) => Move::Undo { floor: *floor },
            Stage::Ends(End::Replies(code, changed)) => Move::Reply {
                code: *code,
                changed: *changed,
            },
            Stage::Ends(End::Leaves(code, reason)) => Move::RollbackEnd {
                code: *code,
                reason: *reason,
            },
            Stage::Settles => Move::Commit,
            _ => self.reply_due(),
        }
    }

    /// The look of the scan, where it stands at a row.
    fn scan_look(&self) -> Option<DueLook>
        ensures { IfSome result (λ look. point.due_by (point_of self.now).kept (part_of self.now.walk self.now.place ∷ []) ≡ Move.Look look.table look.rid look.want) }
    {
        let walk = &self.walk;
        match &self.place {
            Place::Slot(rid) => Some(DueLook {
                table: walk.table,
                rid: Rid(*rid),
                want: walk.want,
            }),
            Place::Entry(_, rid) => Some(DueLook {
                table: walk.table,
                rid: *rid,
                want: walk.want,
            }),
            Place::Behind(_) => None,
        }
    }

    /// The look of the stage, if its step is one.
    fn stage_look(&self) -> Option<DueLook>
        ensures { IfSome result (λ look. point.due_by (point_of self.now).kept (staged self.now) ≡ Move.Look look.table look.rid look.want) }
    {
        match &self.stage {
            Stage::Scan => self.scan_look(),
            _ => None,
        }
    }

    /// The look that is due, if the due step is one.
    pub fn due_look(&self) -> Option<DueLook>
        ensures { IfSome result (λ look. due (point_of self.now) ≡ Move.Look look.table look.rid look.want) }
    {
        match self.front {
            Front::Nothing => self.stage_look(),
            _ => None,
        }
    }

    /// The step of an index scan, with its range, where the scan stands behind an entry or before the first.
    fn scan_next(&self) -> Option<(DueNext, &Range)>
        ensures { IfSome result (λ next. point.due_by (point_of self.now).kept (part_of self.now.walk self.now.place ∷ []) ≡ Move.Next next.0.index next.1.now next.0.after next.0.guarded) }
    {
        let walk = &self.walk;
        match &self.place {
            Place::Slot(_) => None,
            Place::Entry(_, _) => None,
            Place::Behind(after) => Some((
                DueNext {
                    index: walk.index,
                    after: *after,
                    guarded: walk.guarded,
                },
                &walk.range,
            )),
        }
    }

    /// The step of an index scan, with its range, if the step of the stage is one.
    fn stage_next(&self) -> Option<(DueNext, &Range)>
        ensures { IfSome result (λ next. point.due_by (point_of self.now).kept (staged self.now) ≡ Move.Next next.0.index next.1.now next.0.after next.0.guarded) }
    {
        match &self.stage {
            Stage::Scan => self.scan_next(),
            _ => None,
        }
    }

    /// The step of an index scan that is due, with its range, if the due step is one.
    pub fn due_next(&self) -> Option<(DueNext, &Range)>
        ensures { IfSome result (λ next. due (point_of self.now) ≡ Move.Next next.0.index next.1.now next.0.after next.0.guarded) }
    {
        match self.front {
            Front::Nothing => self.stage_next(),
            _ => None,
        }
    }

    /// The step that is due.
    pub fn due(&self) -> Move
        requires sound { IsSound self.now }
        ensures { result ≡ due (point_of self.now) }
    {
        match self.front {
            Front::Nothing => self.stage_due(),
            Front::Collapses(table) => Move::Collapse { table },
            Front::Frees(rid) => Move::Free {
                table: self.walk.table,
                rid,
            },
            _ => Move::Claim,
        }
    }
}

impl Course {
    /// The row to write.
    pub fn row(&self) -> &Row
        requires sound { IsSound self.now }
        requires write { is_write (due (point_of self.now)) ≡ true }
        ensures { result.now ≡ point.row_due (point_of self.now) }
    {
        match &self.stage {
            Stage::NewRow => self.inserted_row(),
            _ => &self.assigned,
        }
    }

    /// The row of an INSERT.
    fn inserted_row(&self) -> &Row
        requires { inserts self.now.statement ≡ true }
        ensures { result.now ≡ inserted self.now.statement }
    {
        match &self.statement {
            Statement::Insert { row, .. } => row,
            _ => &self.assigned,
        }
    }
}

impl Course {
    /// What the scan kept, as rows of a reply.
    fn take_kept(&mut self, alloc: Global) -> Rows
        requires { IsSound self.old }
        ensures rows { result ≡ point.haul_rows (point_of self.old).kept }
        ensures none { point.haul_rows (point_of self.new).kept ≡ [] }
        ensures rest { point_of self.new ≡ record (point_of self.old) { kept = (point_of self.new).kept } }
        ensures sound { IsSound self.new }
    {
        match self.tally {
            Some(count) => {
                self.rows.item_mut(0).put(0, Value::Int(i64::from(count)));
                self.tally = None;
                mem::replace(&mut self.rows, Items::new(alloc))
            }
            None => match &self.statement {
                Statement::Select { .. } => mem::replace(&mut self.rows, Items::new(alloc)),
                _ => Items::new(alloc),
            },
        }
    }

    /// The rows of the reply.
    pub fn take_rows(&mut self, alloc: Global) -> Rows
        requires { IsSound self.old }
        ensures rows { result ≡ point.rows_due (point_of self.old) }
        ensures none { point.rows_due (point_of self.new) ≡ [] }
        ensures rest { point_of self.new ≡ record (point_of self.old) { kept = (point_of self.new).kept } }
        ensures sound { IsSound self.new }
    {
        match self.front {
            Front::Nothing => match self.stage {
                Stage::Answer => self.take_kept(alloc),
                _ => Items::new(alloc),
            },
            _ => Items::new(alloc),
        }
    }
}
