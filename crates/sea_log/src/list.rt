// What a scan finds.
use sea_fields::Bytes;
use sqlite_items::Items;

/// The payloads of a log in order.
pub type Payloads = Items<Bytes>;

/// What a log holds.
#[derive(Debug, Drop)]
pub struct Scan {
    /// The payloads of its records in order.
    pub payloads: Payloads,
    /// The place of the gate that ends the list, which is 0 in a file of fewer than 6 bytes.
    pub end: u64,
}
