//! A link at the moment of a cut.
use bep_model::Flight;
use bep_record::{DeviceId, Items};

/// The link between two devices: whether it is up, and the messages on their way that carry records of folders which
/// both ends share.
pub struct LinkState {
    /// The smaller of the two devices.
    pub a: DeviceId,
    /// The greater one.
    pub b: DeviceId,
    /// Whether the link is up.
    pub up: bool,
    /// The number of its connection, 0 before the first.
    pub epoch: u64,
    /// What is on its way to `a`, the first to arrive first.
    pub to_a: Items<Flight>,
    /// What is on its way to `b`, the first to arrive first.
    pub to_b: Items<Flight>,
}

// By hand: a caller's proof then sees one call where it lets go of one, and not each field (docs/developing.md).
impl Drop for LinkState {
    fn drop(self) {
        let LinkState {
            a: _,
            b: _,
            up: _,
            epoch: _,
            to_a: _,
            to_b: _,
        } = self;
    }
}
