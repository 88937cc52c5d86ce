ghost use Rattle.std.specs.Prelude.{◌≡◌, ◌<◌, ◌↔◌, length, slice_get, slice_set, IfOk, Some};

use crate::items::{Items, Memory};
use crate::value::Value;
use std::alloc::Global;
use std::marker::Model;

/// A row. Contracts see it as the list of its values.
#[derive(Drop)]
pub struct Row {
    values: Vec<Value>,
}

impl Model for Row {
    ghost use Rattle.std.specs.Prelude.{List};
    ghost use Rattle.iso_types.specs.declared.value.Value.{Value as Cell};

    ghost Value = { List Cell };

    ghost view = { λ r. r.values.items };
}

pub type Rows = Items<Row>;

impl Row {
    pub fn of(alloc: Global, values: &[Value]) -> Result<Row, Memory>
        ensures { IfOk result (λ r. r ≡ values.now) }
    {
        let values = Vec::from_slice(alloc, values)?;
        Ok(Row { values })
    }

    pub fn copied(&self, alloc: Global) -> Result<Row, Memory>
        ensures { IfOk result (λ r. r ≡ self.now) }
    {
        Row::of(alloc, self.values.as_slice())
    }

    pub fn width(&self) -> usize
        ensures { result ≡ length self.now }
    {
        self.values.len()
    }

    pub fn as_slice(&self) -> &[Value]
        ensures { result.now ≡ self.now }
    {
        self.values.as_slice()
    }

    pub fn value(&self, column: u8) -> Value
        requires { column < length self.now }
        ensures { slice_get self.now column ≡ Some result }
    {
        self.values[column as usize]
    }

    pub fn put(&mut self, column: u8, value: Value)
        requires { column < length self.old }
        ensures { self.new ≡ slice_set self.old column value }
    {
        self.values[column as usize] = value;
    }
}
