//! The plain data of the project: values and texts, rows and lists of them, lock names, heads,
//! connections' desks, and the gate.
#![tactic(auto)]

mod cycle;
mod desk;
mod edges;
mod gate;
mod head;
mod items;
mod row;
mod text;
mod twin;
mod value;

pub use cycle::Cycle;
pub use desk::{Desk, Phase};
pub use edges::Edges;
pub use gate::{Gate, OpenGate, Place};
pub use head::{
    Column, ColumnKind, Config, ConnDef, Edge, FirstRow, Head, IndexDef, Isolation, Range, TableDef,
};
pub use items::{Items, Memory, StepFault};
pub use row::{Row, Rows};
pub use text::Text;
pub use twin::Twin;
pub use value::{Conn, IndexId, Name, Rid, TableId, Value};
