//! The devices and links of a run.
use bep_record::DeviceId;

/// What has a log: a device, or the link between two of them, the smaller first.
#[derive(Clone, Copy, Debug, PartialEq, Eq)]
pub enum Object {
    /// A device.
    Device(DeviceId),
    /// The link between two devices, the smaller first.
    Link(DeviceId, DeviceId),
}
