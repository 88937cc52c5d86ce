ghost use Rattle.std.specs.Prelude.{◌≡◌, ◌<◌};
ghost use Rattle.iso_modes.specs.Modes.{IsJoin, compatible, covers, escalated, joined, mode_eq, mode_number};

use crate::Mode::{self, In, Is, Ix, Ns, Nw, S, Six, U, X, Z};

const YES: bool = true;

const NO: bool = false;

// Whether the mode of the row goes with the mode of the column; both stand in the order of `Mode`.
// Db2 LUW, 'Lock type compatibility'; the entries of U and NW are this project's own.
const TOGETHER: [[bool; 10]; 10] = [
    [YES, YES, YES, YES, YES, YES, YES, YES, YES, NO],
    [YES, YES, YES, YES, YES, YES, YES, NO, NO, NO],
    [YES, YES, YES, YES, NO, NO, YES, NO, YES, NO],
    [YES, YES, YES, YES, NO, NO, YES, NO, NO, NO],
    [YES, YES, NO, NO, YES, NO, NO, NO, NO, NO],
    [YES, YES, NO, NO, NO, NO, NO, NO, NO, NO],
    [YES, YES, YES, YES, NO, NO, NO, NO, NO, NO],
    [YES, NO, NO, NO, NO, NO, NO, NO, NO, NO],
    [YES, NO, YES, NO, NO, NO, NO, NO, NO, NO],
    [NO, NO, NO, NO, NO, NO, NO, NO, NO, NO],
];

// The join of the mode of the row and the mode of the column. This project's own.
const JOINS: [[Mode; 10]; 10] = [
    [In, Is, Ns, S, Ix, Six, U, X, Nw, Z],
    [Is, Is, S, S, Ix, Six, U, X, Nw, Z],
    [Ns, S, Ns, S, Six, Six, U, X, Nw, Z],
    [S, S, S, S, Six, Six, U, X, Nw, Z],
    [Ix, Ix, Six, Six, Ix, Six, Six, X, X, Z],
    [Six, Six, Six, Six, Six, Six, Six, X, X, Z],
    [U, U, U, U, Six, Six, U, X, Nw, Z],
    [X, X, X, X, X, X, X, X, X, Z],
    [Nw, Nw, Nw, Nw, X, X, Nw, X, Nw, Z],
    [Z, Z, Z, Z, Z, Z, Z, Z, Z, Z],
];

// The row and the column of a mode.
#[tactic(auto, unfolding(crate::specs::Modes::mode_number))]
fn place(mode: Mode) -> usize
    ensures number { result ≡ mode_number mode }
    ensures below { result < 10 }
{
    mode as usize
}

/// Whether both are the same mode.
#[tactic(auto, unfolding(crate::specs::Modes::mode_eq, crate::specs::Modes::mode_number))]
pub fn is_same(a: Mode, b: Mode) -> bool
    ensures { result ≡ mode_eq a b }
{
    a == b
}

/// Whether two connections may hold one name in these modes.
/// Db2 LUW, 'Lock type compatibility'; the entries of U and NW are this project's own.
pub fn compatible(a: Mode, b: Mode) -> bool
    ensures { result ≡ compatible a b }
{
    TOGETHER[place(a)][place(b)]
}

/// The mode that goes with exactly the modes that go with both: what a connection that holds one
/// comes to hold where it is granted the other. This project's own, as the rule of conversion.
pub fn joined(a: Mode, b: Mode) -> Mode
    ensures join { IsJoin result a b }
    ensures table { result ≡ joined a b }
{
    JOINS[place(a)][place(b)]
}

/// Whether a connection's own lock of a table, in the first mode, covers a row or key lock on that
/// table in the second: such a request takes no lock. This project's own.
#[tactic(auto, unfolding(crate::specs::Modes::covers))]
pub fn covers(table: Mode, row: Mode) -> bool
    ensures { result ≡ covers table row }
{
    match table {
        S | Six => matches!(row, Ns | S),
        X | Z => true,
        _ => false,
    }
}

/// The mode that an escalation asks for on a table that is held in this mode.
/// Db2 LUW, 'Lock escalation'; the modes are this project's own.
#[tactic(auto, unfolding(crate::specs::Modes::escalated))]
pub fn escalated(table: Mode) -> Mode
    ensures { result ≡ escalated table }
{
    match table {
        Is | S => S,
        Z => Z,
        _ => X,
    }
}

#[cfg(test)]
mod tests {
    use super::*;

    const MODES: [Mode; 10] = [In, Is, Ns, S, Ix, Six, U, X, Nw, Z];

    #[test]
    fn all_pairs_of_modes(rt: HostRuntime) {
        let goes_with: [&[Mode]; 10] = [
            &[In, Is, Ns, S, Ix, Six, U, X, Nw],
            &[In, Is, Ns, S, Ix, Six, U],
            &[In, Is, Ns, S, U, Nw],
            &[In, Is, Ns, S, U],
            &[In, Is, Ix],
            &[In, Is],
            &[In, Is, Ns, S],
            &[In],
            &[In, Ns],
            &[],
        ];
        for (a, row) in MODES.iter().zip(goes_with.iter()) {
            for b in MODES.iter() {
                assert!(rt; compatible(*a, *b) == row.contains(b));
            }
        }
    }

    #[test]
    fn joins(rt: HostRuntime) {
        let joins = [
            (Is, [S, S, Ix, Six, U, Nw]),
            (Ns, [Ns, S, Six, Six, U, Nw]),
            (S, [S, S, Six, Six, U, Nw]),
            (Ix, [Six, Six, Ix, Six, Six, X]),
            (Six, [Six, Six, Six, Six, Six, X]),
            (U, [U, U, Six, Six, U, Nw]),
            (Nw, [Nw, Nw, X, X, Nw, Nw]),
        ];
        for (a, row) in joins.iter() {
            for (b, join) in [Ns, S, Ix, Six, U, Nw].iter().zip(row.iter()) {
                assert!(rt; joined(*a, *b) == *join && joined(*b, *a) == *join);
            }
        }
        for mode in MODES.iter() {
            assert!(rt; joined(In, *mode) == *mode && joined(*mode, In) == *mode);
            assert!(rt; joined(Z, *mode) == Z && joined(*mode, Z) == Z);
            assert!(rt; *mode == Z || joined(X, *mode) == X && joined(*mode, X) == X);
        }
    }

    #[test]
    fn table_locks(rt: HostRuntime) {
        for row in MODES.iter() {
            for table in [S, Six] {
                assert!(rt; covers(table, *row) == (*row == Ns || *row == S));
            }
            assert!(rt; covers(X, *row) && covers(Z, *row));
            for table in [In, Is, Ns, Ix, U, Nw] {
                assert!(rt; !covers(table, *row));
            }
        }
        let asked = [X, S, X, S, X, X, X, X, X, Z];
        for (table, mode) in MODES.iter().zip(asked.iter()) {
            assert!(rt; escalated(*table) == *mode);
        }
    }
}
