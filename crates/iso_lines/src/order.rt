//! The order of names in a snapshot.
ghost use Rattle.std.specs.Prelude.{◌≡◌, IfOk};
ghost use Rattle.std.specs.List.Sorted.{IsPermutation, IsSortedBy};
ghost use Rattle.std.specs.Ordering.{is_lt};
ghost use Rattle.iso_queue.specs.Snapshots.{name_lt, stands_before, table_number};

use iso_types::{Head, Memory, Name};
use std::cmp::Ordering;

/// The number of the name's table.
fn table_number(head: &Head, name: &Name) -> u8
    ensures { result ≡ table_number head.now name.now }
{
    match name {
        Name::Table(table) | Name::Row(table, _) => table.0,
        Name::Key(index, _) | Name::End(index) => match head.indexes.get(index.0 as usize) {
            Some(index) => index.table.0,
            None => 0,
        },
    }
}

/// The order of the names of one table: the table, its rows by rid, for each index its keys in order and END.
#[tactic(auto, unfolding(iso_queue::specs::Snapshots::stands_before, iso_types::specs::Value::value_lt))]
fn compare_in_table(a: &Name, b: &Name) -> Ordering
    ensures { is_lt result ≡ stands_before a.now b.now }
{
    match (a, b) {
        (Name::Table(_), Name::Table(_)) => Ordering::Equal,
        (Name::Table(_), _) => Ordering::Less,
        (_, Name::Table(_)) => Ordering::Greater,
        (Name::Row(_, rid), Name::Row(_, other)) => rid.0.cmp(&other.0),
        (Name::Row(_, _), _) => Ordering::Less,
        (_, Name::Row(_, _)) => Ordering::Greater,
        (Name::Key(index, value), Name::Key(other, key)) => {
            index.0.cmp(&other.0).then(value.compare(key))
        }
        (Name::Key(index, _), Name::End(other)) => index.0.cmp(&other.0).then(Ordering::Less),
        (Name::End(index), Name::Key(other, _)) => index.0.cmp(&other.0).then(Ordering::Greater),
        (Name::End(index), Name::End(other)) => index.0.cmp(&other.0),
    }
}

/// The order of names: by table, then by the order in it.
fn compare(head: &Head, a: &Name, b: &Name) -> Ordering
    ensures { is_lt result ≡ name_lt head.now a.now b.now }
{
    let (table, other) = (table_number(head, a), table_number(head, b));
    table.cmp(&other).then(compare_in_table(a, b))
}

/// The names in their order. `Memory`: want of memory.
pub fn in_order<'a>(head: &Head, mut names: Vec<&'a Name>) -> Result<Vec<&'a Name>, Memory>
    ensures names { IfOk result (λ sorted. IsPermutation names.entry.items sorted.items) }
    ensures order { IfOk result (λ sorted. IsSortedBy (λ n m. name_lt head.now n.now m.now) sorted.items) }
{
    names.sort_by(|a, b| compare(head, a, b))?;
    Ok(names)
}
