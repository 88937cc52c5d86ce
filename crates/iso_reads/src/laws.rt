//! What holds of all looks.
ghost use Rattle.std.specs.Prelude.{◌≡◌, true};
ghost use Rattle.iso_history.specs.After.{world};
ghost use Rattle.iso_history.specs.Facts.{IsSound};
ghost use Rattle.iso_history.specs.Looks.{look, may_look};
ghost use Rattle.iso_history.specs.Requests.Outcome.{Gives};
ghost use Rattle.iso_history.specs.World.{World};
ghost use Rattle.iso_history.specs.declared.entry.Got.{Got};
ghost use Rattle.iso_history.specs.declared.entry.Want.{Want};
ghost use Rattle.iso_history.specs.declared.entry.Want.TheVariants as wants;
ghost use Rattle.iso_modes.specs.declared.Mode.TheVariants as modes;
ghost use Rattle.iso_queue.specs.Locks.{holds_at_least};
ghost use Rattle.iso_rebuild.specs.declared.past.Past.{Past};
ghost use Rattle.iso_state.specs.Stands.{Content, Stands};
ghost use Rattle.iso_types.specs.declared.head.Head.{Head};
ghost use Rattle.iso_types.specs.declared.value.Conn.{Conn};
ghost use Rattle.iso_types.specs.declared.value.Name.TheVariants as names;
ghost use Rattle.iso_types.specs.declared.value.Rid.{Rid};
ghost use Rattle.iso_types.specs.declared.value.TableId.{TableId};
ghost use Rattle.iso_reads.specs.Answers.{answer_at, is_beside};
ghost use Rattle.iso_reads.specs.Settled.{IsSettledBy};
ghost use Rattle.iso_reads.specs.declared.outcomes.Looked.TheVariants.{Pinned};

/// Only a look for Current is pinned: of a connection that holds a lock on the table, no other granted look sees a row beside
/// another unit's pending version.
pub fn pins_are_current()
    ensures { (head : Head) (w : World) (c : Conn) (t : TableId) (r : Rid) (want : Want) → IsSound head w
        → holds_at_least w.holds c (names.Table t) modes.Is ≡ true → may_look head w c t r want ≡ true → look head w c t r want ≡ Gives Got.Granted
        → is_beside w c t r want ≡ true → want ≡ wants.Current }
{}

/// Where the answer to a look is a pin, the look is one for Current, and the row that `rebuild` makes of the pin is the one
/// that was last committed when it looked. A look that may stand is one of a connection that holds a lock on the table.
pub fn pins_are_settled()
    ensures { (p : Content) (c : Conn) (t : TableId) (r : Rid) (want : Want) (past : Past) → Stands p
        → holds_at_least (world p.head p.history).holds c (names.Table t) modes.Is ≡ true → may_look p.head (world p.head p.history) c t r want ≡ true
        → answer_at p c t r want ≡ Pinned past → IsSettledBy (world p.head p.history) t r want past }
{}
