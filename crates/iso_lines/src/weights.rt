//! How many of a connection's names weigh, kept for each table.
ghost use Rattle.std.specs.Prelude.{◌≡◌, ◌<◌, ◌+◌, Some, false, length, true};
ghost use Rattle.iso_lines.specs.Weighs.{is_long, share, weight_of};
ghost use Rattle.iso_queue.specs.Lines.{hold_of};
ghost use Rattle.iso_lines.specs.Named.{line_of};
ghost use Rattle.iso_types.specs.declared.value.TableId.{TableId as Numbered};

use crate::lines::Lines;
use iso_modes::Term;
use iso_queue::Hold;
use iso_types::{Conn, Name, TableId};

/// Whether there is a hold, and it is not Brief.
fn is_long(hold: Option<Hold>) -> bool
    ensures { result ≡ is_long hold }
{
    match hold {
        Some(hold) => match hold.term {
            Term::Brief => false,
            Term::Kept | Term::Fresh => true,
        },
        None => false,
    }
}

/// Whether the connection has a hold in the line of the name, and it is not Brief.
pub fn holds_long(lines: &Lines, conn: Conn, name: &Name) -> bool
    ensures { result ≡ is_long (hold_of (line_of lines.now name.now).holders conn) }
{
    match lines.queue(name) {
        Some(queue) => is_long(queue.hold(conn)),
        None => false,
    }
}

/// Counts a name of the table in where it came to weigh, and out where it weighs no more.
pub fn reweigh(weights: &mut Vec<usize>, table: Option<TableId>, before: bool, after: bool)
    requires size { length weights.old.items ≡ 256 }
    requires more { (t : Numbered) → t.0 < 256 → table ≡ Some t → before ≡ false → after ≡ true → weight_of weights.old.items t < 18446744073709551615 }
    requires less { (t : Numbered) → t.0 < 256 → table ≡ Some t → before ≡ true → after ≡ false → 0 < weight_of weights.old.items t }
    ensures size { length weights.new.items ≡ 256 }
    ensures weights { (t : Numbered) → weight_of weights.new.items t + share table before t ≡ weight_of weights.old.items t + share table after t }
{
    let Some(table) = table else {
        return;
    };
    let at = table.0 as usize;
    if !before && after {
        weights[at] += 1;
        return;
    }
    if before && !after {
        weights[at] -= 1;
    }
}
