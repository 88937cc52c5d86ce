ghost use Rattle.std.specs.Prelude.{◌<◌, ℕ, List, Some, None, length};
ghost use Rattle.iso_history.specs.After.{start, world};
ghost use Rattle.iso_history.specs.Facts.{IsSound, LogSound};
ghost use Rattle.iso_history.specs.Fitted.{RowsFit};
ghost use Rattle.iso_history.specs.Legal.{Allowed, Ground};
ghost use Rattle.iso_history.specs.Makers.{by_agent};
ghost use Rattle.iso_history.specs.declared.entry.Act.TheVariants.{Delete, Insert, Undo, Update};
ghost use Rattle.iso_history.specs.declared.entry.Entry.{Entry};
ghost use Rattle.iso_history.specs.World.{World};
ghost use Rattle.iso_types.specs.declared.head.Head.{Head};
ghost use Rattle.iso_types.specs.declared.value.Conn.{Conn};
ghost use Rattle.iso_types.specs.declared.value.Rid.{Rid};
ghost use Rattle.iso_types.specs.declared.value.TableId.{TableId};
ghost use Rattle.iso_types.specs.declared.value.Value.{Value};
ghost use Rattle.iso_chain.specs.Facts.{AreKept, MayAdd, MayUndo, MayWrite};
ghost use Rattle.iso_chain.specs.Carried.{CarriesRows, RowsLaw};
ghost use Rattle.iso_chain.specs.Laws.{ChainsLaw, StepsLaw};
ghost use Rattle.iso_chain.specs.Stands.{AreChained, Chained};

/// Where slots, log and units stand for a world with its facts, undoing a slot's chain gives its versions in turn, and
/// what is rebuilt of its pin is the row that was last committed.
pub fn chains_give_versions()
    ensures { (w : World) (p : Chained) → AreChained w p → AreKept w → ChainsLaw w p }
{}

/// What the steps write into slots, log and units stands for the world after their entries.
pub fn steps_stand()
    ensures { (h : Head) (w : World) (p : Chained) (c : Conn) → AreChained w p → AreKept w → c.0 < length p.book.works → StepsLaw h w p c }
{}

/// The facts that slots, log and units rest on hold in every legal history whose head's rows fit their tables.
pub fn histories_are_kept()
    ensures { (head : Head) (es : List Entry) → RowsFit head (start head).tables → Ground head es → AreKept (world head es) }
{}

/// An entry that may stand gives its write what it asks.
pub fn entries_give_writes()
    ensures undo { (head : Head) (w : World) (c : Conn) (n : ℕ) → IsSound head w → Allowed head w (by_agent c (Undo n)) → MayUndo w c n }
    ensures insert { (head : Head) (w : World) (c : Conn) (t : TableId) (r : Rid) (row : List Value) → IsSound head w
        → Allowed head w (by_agent c (Insert t r row)) → MayAdd w c t }
    ensures update { (head : Head) (w : World) (c : Conn) (t : TableId) (r : Rid) (row : List Value) → IsSound head w → LogSound head w
        → Allowed head w (by_agent c (Update t r row)) → MayWrite w c t r (Some row) }
    ensures delete { (head : Head) (w : World) (c : Conn) (t : TableId) (r : Rid) → IsSound head w → LogSound head w
        → Allowed head w (by_agent c (Delete t r)) → MayWrite w c t r None }
{}

/// The log carries the new row of each Insert and Update of the history, and what the steps write carries them with their
/// entries. The first log is empty, as the first history is.
pub fn records_carry_rows()
    ensures { (p : Chained) (c : Conn) (es : List Entry) → CarriesRows p.log es → RowsLaw p c es }
{}
