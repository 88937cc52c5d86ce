ghost use Rattle.std.specs.Prelude.{◌≡◌, ◌≤◌, ◌++◌, length, IfOk, OnOk};
ghost use Rattle.iso_record.specs.Olds.{old_of, olds};

use iso_types::{Items, Memory, Value};
use std::alloc::Global;

/// The old value of a column is last, where the new one differs from it.
fn push_old(
    list: &mut Items<(u8, Value)>,
    column: u8,
    old: &Value,
    new: &Value,
) -> Result<(), Memory>
    ensures { OnOk result (list.new ≡ list.old ++ old_of column old.now new.now) }
{
    if !old.is_same(new) {
        list.push((column, *old))?;
    }
    Ok(())
}

/// The old values of the columns in which a row differs from the new one; `Memory` where there is none.
pub fn olds_of(alloc: Global, old: &[Value], new: &[Value]) -> Result<Items<(u8, Value)>, Memory>
    requires width { length old.now ≤ 256 }
    requires same { length new.now ≡ length old.now }
    ensures { IfOk result (λ list. list ≡ olds old.now new.now) }
{
    let mut list = Items::new(alloc);
    for at in 0..old.len() {
        push_old(&mut list, at as u8, &old[at], &new[at])?;
    }
    Ok(list)
}
