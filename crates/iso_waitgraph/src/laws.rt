//! Laws of cycles: calls without a body, whose contracts are the laws.

ghost use Rattle.std.specs.Prelude.{◌≡◌, ◌↔◌, true, Bool, List, MatchOption};
ghost use Rattle.iso_types.specs.Cycles.{HasNoCycle, IsChosen, IsCycle, chosen_cycle, is_among, is_on_cycle};
ghost use Rattle.iso_types.specs.declared.value.Conn.{Conn};
ghost use Rattle.iso_waitgraph.specs.Targets.{AreTargets};

/// Trying paths in order, by which a history is judged, finds the chosen cycle, and none exactly where there is no cycle; it
/// tells who lies on a cycle. And there is one chosen cycle at most.
pub fn paths_find_the_cycle()
    ensures chosen { (edge : Conn → Conn → Bool) (targets : Conn → List Conn) (all : List Conn) → AreTargets edge targets all
        → MatchOption (chosen_cycle targets all) (HasNoCycle edge) (IsChosen edge) }
    ensures on { (edge : Conn → Conn → Bool) (targets : Conn → List Conn) (all : List Conn) (c : Conn) → AreTargets edge targets all
        → (is_on_cycle targets all c ≡ true) ↔ ((q : List Conn) × IsCycle edge q × (is_among c q ≡ true)) }
    ensures one { (edge : Conn → Conn → Bool) (p q : List Conn) → IsChosen edge p → IsChosen edge q → p ≡ q }
{}

/// Where each of some connections has an edge to one of them, there is a cycle.
pub fn a_closed_set_has_a_cycle()
    ensures { (edge : Conn → Conn → Bool) (set : List Conn) (c : Conn) → is_among c set ≡ true
        → ((d : Conn) → is_among d set ≡ true → (e : Conn) × (is_among e set ≡ true) × (edge d e ≡ true))
        → HasNoCycle edge → ⊥ }
{}
