ghost use Rattle.std.specs.Prelude.{◌≡◌, ◌↔◌, IsTrue};
ghost use Rattle.iso_modes.specs.Modes.{IsJoin, at_least, compatible, joined};

use crate::Mode;

/// Law: the table of compatible modes is symmetric.
#[tactic(auto, using(crate::proofs::Table::symmetric))]
pub fn compatible_is_symmetric(a: Mode, b: Mode)
    ensures { compatible a b ≡ compatible b a }
{}

/// Law: two modes have exactly one join.
#[tactic(auto, using(crate::proofs::Table::join_is, crate::proofs::Table::join_only))]
pub fn join_is_unique(a: Mode, b: Mode, other: Mode)
    ensures one { IsJoin (joined a b) a b }
    ensures only { IsJoin other a b → other ≡ joined a b }
{}

/// Law: whoever is compatible with the join of two modes is compatible with both, and whoever is
/// compatible with both is compatible with their join.
#[tactic(auto, using(crate::proofs::Table::goes_with_both))]
pub fn join_is_compatible_like_both(a: Mode, b: Mode, other: Mode)
    ensures { IsTrue (compatible other (joined a b)) ↔ (IsTrue (compatible other a) × IsTrue (compatible other b)) }
{}

/// Law: it does not matter which mode is held and which is asked for.
#[tactic(auto, using(crate::proofs::Table::joined_commutes))]
pub fn joined_is_commutative(a: Mode, b: Mode)
    ensures { joined a b ≡ joined b a }
{}

/// Law: it does not matter in which order three modes are joined.
#[tactic(auto, using(crate::proofs::Table::joined_associates))]
pub fn joined_is_associative(a: Mode, b: Mode, c: Mode)
    ensures { joined (joined a b) c ≡ joined a (joined b c) }
{}

/// Law: to ask for the mode that is held changes nothing.
#[tactic(auto, using(crate::proofs::Table::joined_same))]
pub fn joined_is_idempotent(a: Mode)
    ensures { joined a a ≡ a }
{}

/// Law: IN adds nothing to a mode.
#[tactic(auto, using(crate::proofs::Table::joined_unit_left, crate::proofs::Table::joined_unit_right))]
pub fn in_is_unit(a: Mode)
    ensures left { joined Mode.In a ≡ a }
    ensures right { joined a Mode.In ≡ a }
{}

/// Law: the join of two modes is each of them, or more.
#[tactic(auto, using(crate::proofs::Table::at_least_first, crate::proofs::Table::at_least_second))]
pub fn join_is_at_least_both(a: Mode, b: Mode)
    ensures first { IsTrue (at_least (joined a b) a) }
    ensures second { IsTrue (at_least (joined a b) b) }
{}
