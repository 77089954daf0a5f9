//! What a step touches.
ghost use Rattle.std.specs.Prelude.{◌≡◌, ◌&&◌};
ghost use Rattle.bep_fit.specs.Logs.{touches, touches_object};
ghost use Rattle.bep_machine.specs.Halves.{guards_of, touches_device, touches_link};
ghost use Rattle.bep_run_check.specs.inner.Guards.{meant};

use crate::ObjectLog;
use bep_fit::{Object, Stamped};
use bep_machine::Step;
use bep_record::DeviceId;

// The objects that are held while a step is made.
#[derive(Clone, Copy)]
pub(crate) enum Guards {
    OfDevice(DeviceId),
    // the device, and its link with the other one
    OfDeviceAndLink(DeviceId, DeviceId),
    OfLink(DeviceId, DeviceId),
    OfDeviceAndLinks(DeviceId),
}

// What is held while the step is made.
pub(crate) fn guards_of(step: &Step) -> Guards
    ensures { meant result ≡ guards_of step.now }
{
    match step {
        Step::Edit(device, _, _, _) => Guards::OfDevice(*device),
        Step::Remove(device, _, _) => Guards::OfDevice(*device),
        Step::Scan(device, _, _) => Guards::OfDevice(*device),
        Step::Override(device, _, _) => Guards::OfDevice(*device),
        Step::Revert(device, _, _) => Guards::OfDevice(*device),
        Step::Connect(one, other) => Guards::OfLink(*one, *other),
        Step::Lose(one, other) => Guards::OfLink(*one, *other),
        Step::Begin(device, other) => Guards::OfDeviceAndLink(*device, *other),
        Step::Deliver(device, other) => Guards::OfDeviceAndLink(*device, *other),
        Step::Announce(device, other, _) => Guards::OfDeviceAndLink(*device, *other),
        Step::StartPull(device, _, _) => Guards::OfDevice(*device),
        Step::Ask(device, other, _, _) => Guards::OfDeviceAndLink(*device, *other),
        Step::Finish(device, _, _) => Guards::OfDevice(*device),
        Step::Restart(device) => Guards::OfDeviceAndLinks(*device),
        Step::Reset(device, _) => Guards::OfDeviceAndLinks(*device),
    }
}

// Whether the event touches the object of the log.
pub(crate) fn touches(event: &Stamped, log: &ObjectLog) -> bool
    ensures { result ≡ touches event.now log.now }
{
    touches_object(guards_of(&event.event.step), log.object())
}

// Whether the object is among them.
fn touches_object(guards: Guards, object: Object) -> bool
    ensures { result ≡ touches_object (meant guards) object }
{
    match object {
        Object::Device(device) => touches_device(guards, device),
        Object::Link(lower, upper) => touches_link(guards, lower, upper),
    }
}

fn touches_device(guards: Guards, one: DeviceId) -> bool
    ensures { result ≡ touches_device (meant guards) one }
{
    match guards {
        Guards::OfDevice(device) => one == device,
        Guards::OfDeviceAndLink(device, _) => one == device,
        Guards::OfLink(_, _) => false,
        Guards::OfDeviceAndLinks(device) => one == device,
    }
}

fn touches_link(guards: Guards, lower: DeviceId, upper: DeviceId) -> bool
    ensures { result ≡ touches_link (meant guards) lower upper }
{
    match guards {
        Guards::OfDevice(_) => false,
        Guards::OfDeviceAndLink(device, other) => {
            if device < other {
                lower == device && upper == other
            } else {
                lower == other && upper == device
            }
        }
        Guards::OfLink(one, other) => lower == one && upper == other,
        Guards::OfDeviceAndLinks(device) => lower == device || upper == device,
    }
}

// Whether both hold.
pub(crate) fn are_both(one: bool, other: bool) -> bool
    ensures { result ≡ (one && other) }
{
    one && other
}
