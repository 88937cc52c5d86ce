//! Scripts, as they are read.

use iso_sql::Statement;
use iso_types::{Conn, Head, Items};

/// What a body line asks for.
#[derive(Drop)]
pub enum What {
    Statement(Statement),
    Expire,
    Snapshot,
}

/// A body line: its number in the script from 1, its connection (SNAPSHOT alone has none), whether
/// it stands behind `&`, and what it asks for.
#[derive(Drop)]
pub struct Line {
    pub number: u32,
    pub conn: Option<Conn>,
    pub free: bool,
    pub what: What,
}

/// A script: what its head lines declare, and its body lines in order.
#[derive(Drop)]
pub struct Script {
    pub head: Head,
    pub lines: Items<Line>,
}
