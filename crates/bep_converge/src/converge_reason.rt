//! Why a cut doesn't converge.

/// Why a cut doesn't converge, in the order in which reasons are told.
#[derive(Clone, Copy, Debug, PartialEq, Eq)]
pub enum ConvergeReason {
    /// No device's own record is above all that is known of the name.
    NothingPrevails,
    /// Of two records of the name neither version is at most the other.
    Concurrent,
    /// Two records of the name have one version and different contents.
    ContentDiffers,
    /// A device's own record is a local change.
    LocalOnly,
    /// A device's file isn't clean against its own record.
    StoreUnclean,
    /// A device's file hasn't the content that its own record tells.
    StoreDiffers,
    /// A device that only sends isn't at the top.
    SendOnly,
    /// A record counts more of a device's own changes than the device's own record does, and would look like a conflict.
    WouldCopy,
}
