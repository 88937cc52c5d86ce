//! Laws of conduct and of legal histories, each as the contract of a function without a body.

ghost use Rattle.std.specs.List.{list_any};
ghost use Rattle.std.specs.Prelude.{◌≡◌, ◌≤◌, ◌++◌, true, false, length, List, [], ◌∷◌, Option, Some};
ghost use Rattle.iso_conduct.specs.Conduct.{MayIn, is_by, made, point_after, stops_for_memory};
ghost use Rattle.iso_conduct.specs.Legal.{AreGuarded, IsFinished, IsLegal};
ghost use Rattle.iso_conduct.specs.Pacing.{FirstLine, Paced, lines_left};
ghost use Rattle.iso_conduct.specs.Parts.{Part};
ghost use Rattle.iso_conduct.specs.Points.{Point, updated_columns};
ghost use Rattle.iso_conduct.specs.Schedule.{actors, can_act, first_step};
ghost use Rattle.iso_conduct.specs.Standing.{MayGoOn};
ghost use Rattle.iso_conduct.specs.Whole.{IsWhole};
ghost use Rattle.iso_conduct.specs.Courses.{fits_table, key_within, keyed_within, reads_within};
ghost use Rattle.iso_history.specs.After.{world};
ghost use Rattle.iso_history.specs.Legal.{Allowed, ByDispatcher, Ground};
ghost use Rattle.iso_history.specs.Makers.{by_agent, by_dispatcher};
ghost use Rattle.iso_history.specs.Phases.{phase};
ghost use Rattle.iso_history.specs.Stops.{history_limit};
ghost use Rattle.iso_history.specs.World.{World};
ghost use Rattle.iso_history.specs.declared.entry.Act.{Act};
ghost use Rattle.iso_history.specs.declared.entry.Entry.{Entry};
ghost use Rattle.iso_script.specs.Sound.{IsSound};
ghost use Rattle.iso_script.specs.declared.script.Line.{Line};
ghost use Rattle.iso_script.specs.declared.script.Script.{Script};
ghost use Rattle.iso_sql.specs.Sound.{columns_of, is_sound_statement};
ghost use Rattle.iso_sql.specs.declared.statement.Statement.{Statement};
ghost use Rattle.iso_types.specs.Head.{is_conn, row_fits};
ghost use Rattle.iso_types.specs.declared.head.Head.{Head};
ghost use Rattle.iso_types.specs.declared.value.Conn.{Conn};
ghost use Rattle.iso_types.specs.declared.value.TableId.{TableId};
ghost use Rattle.iso_types.specs.declared.value.Value.{Value};

/// At each point of a connection at most one entry is its next own one, a stop for want of memory aside: conduct leaves no
/// choice.
pub fn one_entry_is_next()
    ensures { (head : Head) (lines : List Line) (w : World) (c : Conn) (o : Option Point) (a b : Act)
        → stops_for_memory a ≡ false → stops_for_memory b ≡ false
        → MayIn (phase w c) head lines w c o a → MayIn (phase w c) head lines w c o b → a ≡ b }
{}

/// What others do leaves the point of a connection's statement.
pub fn others_leave_the_point()
    ensures { (head : Head) (lines : List Line) (w : World) (c : Conn) (o : Option Point) (e : Entry)
        → is_by c e.who ≡ false → point_after head lines w c o e ≡ o }
{}

/// A legal history that ends with Finish and has no Stopped has taken every line of its script.
pub fn finished_takes_all_lines()
    ensures { (script : Script) (es : List Entry) → IsLegal script (es ++ by_dispatcher Act.Finish ∷ [])
        → (world script.head es).pace.stopped ≡ false → lines_left script.lines es ≡ [] }
{}

/// A legal history that ends with Finish and has no Stopped is whole: each line's statement is answered Busy, or dispatched
/// and then answered, each EXPIRE and SNAPSHOT line has its entry, and each connection has ended.
pub fn finished_is_whole()
    ensures { (script : Script) (es : List Entry) → IsLegal script es → IsFinished es
        → (world script.head es).pace.stopped ≡ false → IsWhole script es }
{}

/// Every legal history is guarded: held locks go together, a Current look shows the settled row, and what was looked at to
/// stay, a table under a repeatable-read scan, and the part of a range that a repeatable-read scan has passed are changed by no
/// other connection until the unit ends.
pub fn legal_histories_are_guarded()
    ensures { (script : Script) (es : List Entry) → IsLegal script es → AreGuarded script es }
{}

/// No history comes to a stand before its end: where it has no Finish, the dispatcher has an entry to make, or some connection's
/// agent is able. And none goes on for ever: it has at most 2,000,000 entries.
pub fn some_actor_is_able()
    ensures able { (script : Script) (es : List Entry) → IsSound script → Ground script.head es → Paced script.head script.lines es
        → (world script.head es).pace.finished ≡ false
        → list_any (can_act script.head (world script.head es) (lines_left script.lines es)) (actors script.head) ≡ true }
    ensures bounded { (script : Script) (es : List Entry) → IsSound script → Ground script.head es → length es ≤ history_limit }
{}

/// A row that fits its table has all the columns that a sound statement on it reads, and the column of an index whose column
/// the table has. So a task may be told each row that a look of it shows.
pub fn shown_rows_suit()
    ensures reads { (head : Head) (s : Statement) (row : List Value) → is_sound_statement head s ≡ true → fits_table head s row ≡ true
        → reads_within s (updated_columns head s) row ≡ true }
    ensures key { (head : Head) (t : TableId) (row : List Value) (ps : List Part) → row_fits head t row ≡ true
        → keyed_within (length (columns_of head t)) ps ≡ true → key_within ps row ≡ true }
{}

/// The dispatcher's first step of Victim, Purge, the next line's entry, Close and Finish is one that may stand on the history,
/// where the first line left is one of the head's: so a serial run's dispatcher has only to look whether it is full.
pub fn first_steps_stand()
    ensures { (head : Head) (w : World) (lines : List Line) (a : Act) → FirstLine head lines → first_step head w lines ≡ Some a
        → ByDispatcher head w a × (w.pace.finished ≡ false) }
{}

/// A step that its connection may make, as its call asks, has an entry that may stand: what `made` records, a Stopped in its place
/// where the history is full.
pub fn made_stands()
    ensures { (script : Script) (es : List Entry) (c : Conn) (p : Point) → IsSound script → Ground script.head es
        → is_conn script.head c ≡ true → (world script.head es).pace.finished ≡ false
        → MayGoOn script.head (world script.head es) c p
        → Allowed script.head (world script.head es) (by_agent c (made script.head (world script.head es) c p)) }
{}
