//! What a scan finds.

use ltx_model::rows::Row;
use ltx_model::writes::Look;

/// The rows of a range in the order of their keys, and the looks of its kept keys.
#[derive(Debug, Drop)]
pub struct Scanned {
    pub rows: Vec<Row>,
    pub looks: Vec<Look>,
}
