ghost use Rattle.std.specs.Prelude.{◌≡◌, ◌↔◌, IsTrue};
ghost use Rattle.iso_types.specs.Value.{value_cmp};

use crate::text::Text;
use std::cmp::Ordering;

/// A value of a column. NULL stands before integers, and integers before texts.
#[derive(Clone, Copy, PartialEq, Eq, PartialOrd, Ord, Hash)]
pub enum Value {
    Null,
    Int(i64),
    Text(Text),
}

/// A connection, by its place in the head's list, from 0.
#[derive(Clone, Copy, PartialEq, Eq, PartialOrd, Ord, Hash)]
pub struct Conn(pub u8);

/// A table, by its place in the head's list, from 0.
#[derive(Clone, Copy, PartialEq, Eq, PartialOrd, Ord, Hash)]
pub struct TableId(pub u8);

/// An index, by its place in the head's list, from 0.
#[derive(Clone, Copy, PartialEq, Eq, PartialOrd, Ord, Hash)]
pub struct IndexId(pub u8);

/// A slot of a table, numbered from 0 in the order of making.
#[derive(Clone, Copy, PartialEq, Eq, PartialOrd, Ord, Hash)]
pub struct Rid(pub u32);

/// A lock name: a table, a row by its rid, a key value of an index, or the end of an index.
/// Db2 LUW, 'Lock attributes' (object); key and END names are this project's own.
#[derive(Clone, Copy, PartialEq, Eq, PartialOrd, Ord, Hash)]
pub enum Name {
    Table(TableId),
    Row(TableId, Rid),
    Key(IndexId, Value),
    End(IndexId),
}

impl Value {
    /// The order of values: NULL, then integers by number, then texts by their bytes.
    #[tactic(auto, unfolding(crate::specs::Value::value_cmp))]
    pub fn compare(&self, other: &Value) -> Ordering
        ensures { result ≡ value_cmp self.now other.now }
    {
        self.cmp(other)
    }

    /// Whether both are the same value; NULL is the same as NULL here.
    pub fn is_same(&self, other: &Value) -> bool
        ensures { IsTrue result ↔ (self.now ≡ other.now) }
    {
        *self == *other
    }
}

impl Name {
    /// Whether both are the same lock name.
    pub fn is_same(&self, other: &Name) -> bool
        ensures { IsTrue result ↔ (self.now ≡ other.now) }
    {
        *self == *other
    }
}
