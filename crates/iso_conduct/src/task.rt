//! A statement at one point of its conduct.

ghost use Rattle.std.specs.Prelude.{◌≡◌, ◌≤◌, [], true, length, OnOk, OnErr, IfOk, IfSome};
ghost use Rattle.iso_conduct.specs.Answers.{answers};
ghost use Rattle.iso_conduct.specs.Courses.{MayTell, is_write, takes_memory};
ghost use Rattle.iso_conduct.specs.Points.{due, row_due, rows_due, start_point, told_point};
ghost use Rattle.iso_conduct.specs.Starts.{setting_of};
ghost use Rattle.iso_conduct.specs.declared.moves.Move.{Move};
ghost use Rattle.iso_sql.specs.Sound.{is_sound_statement};

use crate::course::Course;
use crate::moves::{DueLook, DueNext, Move, Told};
use crate::start::first_course;
use iso_sql::Statement;
use iso_types::{Conn, Desk, Head, Memory, Range, Row, Rows};
use std::alloc::Global;
use std::marker::Model;

/// One statement at one point of its conduct; it keeps its own copy of what it needs of the statement. It is one pointer, so
/// that an agent hands it on at each entry without a copy.
#[derive(Drop)]
pub struct Task {
    course: Box<Course>,
}

impl Model for Task {
    ghost use Rattle.iso_conduct.specs.Points.{Point};
    ghost use Rattle.iso_conduct.specs.Courses.{point_of, IsSound};
    ghost use Rattle.iso_sql.specs.contracts.statement.Condition as condition;
    ghost use Rattle.std.specs.Coded.{codes};

    ghost Value = { Point };

    ghost coded = { Prim.hlevel (codes, condition.the_row.coded) };

    ghost view = { λ t. point_of t.course.value };

    ghost invariant = { λ t. IsSound t.course.value };
}

impl Task {
    /// A statement of a sound head before its first own entry, for a connection with this desk.
    pub fn new(
        alloc: Global,
        statement: &Statement,
        head: &Head,
        conn: Conn,
        desk: &Desk,
    ) -> Result<Task, Memory>
        requires indexes { length head.now.indexes ≤ 256 }
        requires sound { is_sound_statement head.now statement.now ≡ true }
        ensures { IfOk result (λ t. t ≡ start_point head.now conn (setting_of desk.now) desk.now.start statement.now) }
    {
        let course = first_course(alloc, statement, head, conn, desk)?;
        Ok(Task {
            course: Box::new(alloc, course)?,
        })
    }

    /// The next step. It takes no memory and constant time.
    pub fn next(&self) -> Move
        ensures { result ≡ due self.now }
    {
        self.course.due()
    }

    /// The next step where it is a look; where it gives None, `next` tells the step. It spares a scan the copies of a `Move`, which
    /// has room for every step. It takes no memory and constant time. (This project's own.)
    pub fn due_look(&self) -> Option<DueLook>
        ensures { IfSome result (λ look. due self.now ≡ Move.Look look.table look.rid look.want) }
    {
        self.course.due_look()
    }

    /// The next step, with its range, where it is one of an index scan; so the range is not copied. It takes no memory and constant
    /// time. (This project's own.)
    pub fn due_next(&self) -> Option<(DueNext, &Range)>
        ensures { IfSome result (λ next. due self.now ≡ Move.Next next.0.index next.1.now next.0.after next.0.guarded) }
    {
        self.course.due_next()
    }

    /// The row to write: the next step has to be an Insert or an Update. It takes no memory.
    pub fn row(&self) -> &Row
        requires { is_write (due self.now) ≡ true }
        ensures { result.now ≡ row_due self.now }
    {
        self.course.row()
    }

    /// What the next step answered, which has to be an answer of it. A shown row has to have the columns
    /// that the statement reads, and to fit the table that an UPDATE changes.
    pub fn told(&mut self, alloc: Global, outcome: Told) -> Result<(), Memory>
        requires may { MayTell self.old outcome }
        requires answers { answers (due self.old) outcome ≡ true }
        ensures ok { OnOk result (self.new ≡ told_point self.old outcome) }
        // memory is taken for a row that is kept, and for the one that an UPDATE makes once it has the row's lock
        ensures err { OnErr result (takes_memory self.old outcome ≡ true) }
    {
        self.course.told(alloc, outcome)?;
        Ok(())
    }

    /// The rows of the reply, of which the task keeps none. It takes no memory.
    pub fn take_rows(&mut self, alloc: Global) -> Rows
        ensures rows { result ≡ rows_due self.old }
        ensures none { rows_due self.new ≡ [] }
        ensures rest { self.new ≡ record self.old { kept = self.new.kept } }
    {
        self.course.take_rows(alloc)
    }
}
