//! Laws of every legal history, each as the contract of a function without a body.

ghost use Rattle.std.specs.Prelude.{◌≡◌, ◌+◌, ◌≤◌, ◌<◌, ℕ, List, [], Some, true, false, length, take};
ghost use Rattle.std.specs.List.{list_all};
ghost use Rattle.iso_history.specs.After.{world};
ghost use Rattle.iso_history.specs.Facts.{IsSound, LockFacts, LogSound};
ghost use Rattle.iso_history.specs.Guards.{HoldsGuarded, RangesGuarded, ReadsGuarded, RowsGuarded, TablesGuarded, world_at};
ghost use Rattle.iso_history.specs.Legal.{Ground};
ghost use Rattle.iso_history.specs.Looks.{locks_row, look, may_look};
ghost use Rattle.iso_history.specs.Records.{count, debt, last_left, note_of, oldest};
ghost use Rattle.iso_history.specs.Requests.Outcome.{Gives};
ghost use Rattle.iso_history.specs.Scans.{AreChained, are_plain};
ghost use Rattle.iso_history.specs.Settled.{settled_row};
ghost use Rattle.iso_history.specs.Shares.{SharesHold};
ghost use Rattle.iso_history.specs.Stops.{history_limit, needs};
ghost use Rattle.iso_history.specs.Versions.{committed, head_record, is_changed_beside, versions};
ghost use Rattle.iso_history.specs.declared.entry.Entry.{Entry};
ghost use Rattle.iso_history.specs.declared.entry.Got.{Got};
ghost use Rattle.iso_history.specs.declared.entry.Want.{Want};
ghost use Rattle.iso_modes.specs.declared.Mode.TheVariants.{Is};
ghost use Rattle.iso_queue.specs.Locks.{holds_at_least};
ghost use Rattle.iso_types.specs.Head.{row_fits};
ghost use Rattle.iso_types.specs.declared.head.Head.{Head};
ghost use Rattle.iso_types.specs.declared.value.Conn.{Conn};
ghost use Rattle.iso_types.specs.declared.value.Name.TheVariants.{Table};
ghost use Rattle.iso_types.specs.declared.value.Rid.{Rid};
ghost use Rattle.iso_types.specs.declared.value.TableId.{TableId};

/// The guards. In every prefix of a legal history, two connections that hold one name hold modes that go together; what a
/// connection has looked at with a lasting lock stays to its unit's end, so does a table on which it holds S or more, and
/// a Current look beside another's change shows the settled row. The part of a range that a guarded scan has passed stays
/// to the unit's end, where its Nexts are chained and no Lock is on a key name alone.
pub fn guards_hold()
    ensures holds { (head : Head) (es : List Entry) → Ground head es → HoldsGuarded head es }
    ensures reads { (head : Head) (es : List Entry) → Ground head es → ReadsGuarded head es }
    ensures rows { (head : Head) (es : List Entry) → Ground head es → RowsGuarded head es }
    ensures tables { (head : Head) (es : List Entry) → Ground head es → TablesGuarded head es }
    ensures ranges { (head : Head) (es : List Entry) → Ground head es → are_plain es ≡ true → AreChained head es → RangesGuarded head es }
{}

/// The world of every legal history is sound, has all that the steps of locks ask of it, and so is its log where the head's rows fit.
pub fn worlds_are_sound()
    ensures sound { (head : Head) (es : List Entry) → Ground head es → IsSound head (world head es) }
    ensures locks { (head : Head) (es : List Entry) → Ground head es → LockFacts head (world head es) }
    ensures logs { (head : Head) (es : List Entry) → list_all (λ f. row_fits head f.table f.row) head.rows ≡ true
        → Ground head es → LogSound head (world head es) }
{}

/// Every legal history of at most 32 connections stays within the history's limit and the log's, with all that is still to come;
/// and every legal history within the lock limits: each connection within its share, all together within the slots.
pub fn limits_hold()
    ensures entries { (head : Head) (es : List Entry) → length head.conns ≤ 32 → Ground head es
        → (world head es).made + needs head (world head es) ≤ history_limit }
    ensures records { (head : Head) (es : List Entry) → length head.conns ≤ 32 → Ground head es
        → count (world head es) + debt head (world head es) ≤ oldest head (world head es) + head.config.logmax }
    ensures locks { (head : Head) (es : List Entry) → Ground head es → SharesHold head (world head es) }
{}

/// The greatest change that an open unit has left is the last version of its slot.
pub fn undo_takes_the_last()
    ensures { (head : Head) (es : List Entry) (c : Conn) (u n : ℕ) → Ground head es → (world head es).unit c ≡ Some u
        → last_left (world head es) u ≡ Some n
        → head_record (versions (world head es) (note_of (world head es).records n).table (note_of (world head es).records n).rid) ≡ Some n }
{}

/// The committed row of each slot is the settled row, which is told without versions.
pub fn committed_is_settled()
    ensures { (head : Head) (es : List Entry) (k : ℕ) (t : TableId) (r : Rid) → t.0 < length head.tables → Ground head es
        → settled_row head (take k es) t r ≡ committed (versions (world_at head es k) t r) }
{}

/// A granted look that locks its row shows no row beside another unit's pending change. Nor does a granted look at a settled
/// row, where its connection holds IS or more on the table. So of all looks only Current and Dirty show one.
pub fn looks_are_alone()
    ensures locked { (head : Head) (es : List Entry) (c : Conn) (t : TableId) (r : Rid) (want : Want) → Ground head es
        → locks_row want ≡ true → may_look head (world head es) c t r want ≡ true → look head (world head es) c t r want ≡ Gives Got.Granted
        → is_changed_beside (world head es) c t r ≡ false }
    ensures settled { (head : Head) (es : List Entry) (c : Conn) (t : TableId) (r : Rid) → Ground head es
        → holds_at_least (world head es).holds c (Table t) Is ≡ true → look head (world head es) c t r Want.Settled ≡ Gives Got.Granted
        → is_changed_beside (world head es) c t r ≡ false }
{}
