use crate::keys::first_index;
use iso_table::Table;
use iso_types::{Memory, Row, Value};
use std::alloc::Global;
use std::test::Fail;

/// A table of one column with these values.
fn table_of(alloc: Global, values: &[i64]) -> Result<Table, Memory> {
    let mut table = Table::new(alloc);
    for value in values {
        match table.add(Row::of(alloc, &[Value::Int(*value)])?) {
            Ok(_) => {}
            Err(_) => return Err(Memory),
        }
    }
    Ok(table)
}

/// The rids of an index over these values, in the order of its entries, as digits of a number.
fn order_of(alloc: Global, values: &[i64]) -> Result<u32, Memory> {
    let index = first_index(alloc, &table_of(alloc, values)?, 0)?;
    let mut digits = 0u32;
    let mut at = index.first_from(None);
    for _ in 0..9 {
        let Some(entry) = at else {
            return Ok(digits);
        };
        digits = digits.wrapping_mul(10).wrapping_add(entry.1.0);
        at = index.next_after(entry);
    }
    Ok(digits)
}

#[test]
fn begins_with_the_keys_of_the_rows(rt: HostRuntime) -> Result<(), Fail> {
    assert_eq!(rt; order_of(rt.alloc(), &[5, 3, 5, -1])?, 3102);
    Ok(())
}
