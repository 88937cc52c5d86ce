//! What a line says.

use crate::script::What;
use iso_types::{Conn, ConnDef, FirstRow, IndexDef, TableDef};

/// A setting with its value.
#[derive(Clone, Copy)]
pub enum Setting {
    CurCommit(bool),
    Locklist(u32),
    Maxlocks(u32),
    Logmax(u32),
    Window(u32),
}

/// Which settings were declared.
#[derive(Clone, Copy)]
pub struct Settings {
    pub cur_commit: bool,
    pub locklist: bool,
    pub maxlocks: bool,
    pub logmax: bool,
    pub window: bool,
}

/// What a line says. `Asked` is a body line: its connection, whether it stands behind `&`, and what it asks for.
#[derive(Drop)]
pub enum Event {
    First,
    Config(Setting),
    Table(TableDef),
    Index(IndexDef),
    Row(FirstRow),
    Connect(ConnDef),
    Begin,
    Asked(Option<Conn>, bool, What),
    End,
}
