// What an arriving packet did.
use arrayvec::ArrayVec;
use store_put::RefusedPut;

/// What an arriving packet did.
#[derive(Drop)]
pub struct StoreOutcome {
    /// Whether a forward pattern covers it. An idle packet is never forwarded.
    pub forwarded: bool,
    /// The refusals that have to be told, in the order of the stores.
    pub refused: ArrayVec<RefusedPut, 32>,
    /// The number of reports from before it, modulo 16,384: the sequence count of its first report.
    pub first_report: u16,
}
