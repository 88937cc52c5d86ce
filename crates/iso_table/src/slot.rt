use iso_types::Row;

/// A slot: its row, whether it is live, and the records of its last and first pending change that are not undone.
#[derive(Drop)]
pub struct Slot {
    pub row: Row,
    pub live: bool,
    pub head: Option<u32>,
    pub first: Option<u32>,
}
