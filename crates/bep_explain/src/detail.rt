//! What is said below a failure, one thing each. No contract speaks of which these are.
use bep_record::{DeviceId, Node, Record};
use std::alloc::AllocError;

/// What a detail is of.
#[derive(Clone, Copy, PartialEq, Eq)]
pub(crate) enum What {
    /// The winner.
    Winner,
    /// What a row has in the winner's place.
    Row,
    /// A device's own record.
    Own,
    /// What a device stores.
    Store,
    /// What a device sees in another one's index.
    View,
    /// What is on its way to a device from another one.
    Message,
    /// What a device pulls.
    Pull,
}

/// A thing that a person asks next of what fails: a device, and what it has of the name.
#[derive(Drop)]
pub struct Detail<'a> {
    pub(crate) what: What,
    /// The device, none where the name has no winner.
    pub(crate) device: Option<DeviceId>,
    /// The device that the record comes from, where that is another one.
    pub(crate) from: Option<DeviceId>,
    /// The record, if there is one.
    pub(crate) record: Option<&'a Record>,
    /// What is stored, if anything.
    pub(crate) node: Option<&'a Node>,
}

/// Adds a record that a device has, or that it has none.
pub(crate) fn add_record<'a>(
    details: &mut Vec<Detail<'a>>,
    what: What,
    device: Option<DeviceId>,
    from: Option<DeviceId>,
    record: Option<&'a Record>,
) -> Result<(), AllocError> {
    details.reserve(1)?;
    details.push_reserved(Detail {
        what,
        device,
        from,
        record,
        node: None,
    });
    Ok(())
}

/// Adds what a device stores, or that it stores nothing.
pub(crate) fn add_store<'a>(
    details: &mut Vec<Detail<'a>>,
    device: DeviceId,
    node: Option<&'a Node>,
) -> Result<(), AllocError> {
    details.reserve(1)?;
    details.push_reserved(Detail {
        what: What::Store,
        device: Some(device),
        from: None,
        record: None,
        node,
    });
    Ok(())
}
