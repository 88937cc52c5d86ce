//! Which agents the dispatcher's thread drives itself.
use crossbeam_utils::atomic::AtomicCell;
use iso_types::{Conn, Memory};
use std::alloc::Global;

/// A flag for each connection: set where no thread could be started for its agent.
#[derive(Drop)]
pub struct Flags {
    cells: Vec<AtomicCell<bool>>,
}

impl Flags {
    /// A flag for each connection, none set; `Memory` where there is none for the list.
    pub fn new(alloc: Global, conns: u8) -> Result<Flags, Memory> {
        let mut cells = Vec::with_capacity(alloc, usize::from(conns))?;
        for _ in 0..conns {
            cells.push(AtomicCell::new(false))?;
        }
        Ok(Flags { cells })
    }

    /// Whether the flag of the connection is set.
    pub fn is_set(&self, conn: Conn) -> bool {
        match self.cells.get(usize::from(conn.0)) {
            Some(cell) => cell.load(),
            None => false,
        }
    }

    /// Sets the flag of the connection.
    pub fn set(&self, conn: Conn) {
        if let Some(cell) = self.cells.get(usize::from(conn.0)) {
            cell.store(true);
        }
    }
}
