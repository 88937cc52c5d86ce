ghost use Rattle.std.specs.Prelude.{List};
ghost use Rattle.iso_predicate.specs.Assigned.{OverflowIsOfNumbers};
ghost use Rattle.iso_predicate.specs.Bounded.{IsIntersection, MissesNoRow};
ghost use Rattle.iso_sql.specs.declared.statement.Assignment.{Assignment as Setting};
ghost use Rattle.iso_sql.specs.declared.statement.Condition.{Condition as Search};
ghost use Rattle.iso_types.specs.declared.head.Column.{Column as Definition};
ghost use Rattle.iso_types.specs.declared.head.Head.{Head as Declared};
ghost use Rattle.iso_types.specs.declared.head.Range.{Range as Between};
ghost use Rattle.iso_types.specs.declared.value.TableId.{TableId as Id};
ghost use Rattle.iso_types.specs.declared.value.Value.{Value as Cell};

/// Law: a path misses no row. Where a plan goes through an index, the key of each row of which the
/// condition is true lies in the range.
#[tactic(auto, using(crate::proofs::Bounded::misses_no_row))]
pub fn paths_miss_no_row()
    ensures { (head : Declared) (table : Id) (cond : Search) → MissesNoRow head table cond }
{}

/// Law: only numbers overflow. A sound assignment to a row that fits its table answers -802 only
/// where it sets an integer column from a column; a literal and a text never do.
#[tactic(auto, using(crate::proofs::Overflows::overflow_is_of_numbers))]
pub fn only_numbers_overflow()
    ensures { (columns : List Definition) (a : Setting) (row : List Cell) → OverflowIsOfNumbers columns a row }
{}

/// Law: what two ranges have in common is their intersection: it holds of a value exactly where both
/// hold. No bound may be NULL, as no literal of a comparison is.
#[tactic(auto, using(crate::proofs::Intersections::is_intersection))]
pub fn common_ranges_are_intersections()
    ensures { (a : Between) (b : Between) (v : Cell) → IsIntersection a b v }
{}
