//! Why a settled cut isn't firm.

/// Why a settled cut isn't firm, in the order in which reasons are told.
#[derive(Clone, Copy, Debug, PartialEq, Eq)]
pub enum FirmReason {
    /// A device's own record has another version than the winner.
    VersionDiffers,
    /// A record of a device's views has a version that isn't at most the winner's.
    ViewNotBelow,
    /// A record on its way to a device has a version that isn't at most the winner's.
    FlightNotBelow,
    /// The target of a device's pull has a version that isn't at most the winner's.
    PullNotBelow,
}
