//! The laws that the step of an agent which can go on is one that its call allows, and that its entry may stand.

ghost use Rattle.std.specs.Prelude.{◌≡◌, false, true, List, Some};
ghost use Rattle.iso_conduct.specs.Conduct.{Conduct, made, point, ready};
ghost use Rattle.iso_conduct.specs.Points.{Point};
ghost use Rattle.iso_conduct.specs.Standing.{MayGoOn};
ghost use Rattle.iso_history.specs.After.{world};
ghost use Rattle.iso_history.specs.Legal.{Allowed, Ground};
ghost use Rattle.iso_history.specs.Makers.{by_agent};
ghost use Rattle.iso_history.specs.declared.entry.Entry.{Entry};
ghost use Rattle.iso_script.specs.Sound.{IsSound};
ghost use Rattle.iso_script.specs.declared.script.Script.{Script};
ghost use Rattle.iso_standing.specs.Going.{GoesOn};
ghost use Rattle.iso_types.specs.Head.{is_conn};
ghost use Rattle.iso_types.specs.declared.value.Conn.{Conn};

/// In every history whose entries may stand, and in which a connection has kept to its statements, the step that is due of
/// that connection, where it can go on, is one that may be made: its locks are held, its row is there, the index of its step is
/// one of the head's, nothing else is due.
pub fn due_steps_may_be_made()
    ensures { (script : Script) (es : List Entry) (c : Conn) (p : Point) → IsSound script
        → Ground script.head es → Conduct script.head script.lines es c → is_conn script.head c ≡ true
        → GoesOn (world script.head es) c
        → ready script.head script.lines (world script.head es) c (point script.head script.lines es c) ≡ Some p
        → MayGoOn script.head (world script.head es) c p }
{}

/// So what conduct makes of such a connection may stand, while the history is not finished: legality alone is asked for.
pub fn due_steps_stand()
    ensures { (script : Script) (es : List Entry) (c : Conn) (p : Point) → IsSound script → Ground script.head es
        → Conduct script.head script.lines es c → is_conn script.head c ≡ true → GoesOn (world script.head es) c
        → (world script.head es).pace.finished ≡ false
        → ready script.head script.lines (world script.head es) c (point script.head script.lines es c) ≡ Some p
        → Allowed script.head (world script.head es) (by_agent c (made script.head (world script.head es) c p)) }
{}
