// Finding the snapshot and the records of the area that counts.
use ge_collections::{List, Text};

/// The snapshot and the records of an area, with the place of the gate that ends the list.
#[derive(Drop)]
pub struct Found {
    pub snapshot: Text,
    pub records: List<Text>,
    pub end: u64,
}
