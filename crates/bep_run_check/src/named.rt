//! Whether what an event names has a log.
ghost use Rattle.std.specs.Prelude.{◌≡◌, ◌↔◌, [], ◌∷◌, IsTrue};
ghost use Rattle.bep_fit.specs.Logs.{HasLog, ObjectLog as LogOf, link_of, named_by};
ghost use Rattle.bep_run_check.specs.inner.Guards.{HaveLogs, is_device, is_link, is_same, meant};
ghost use Rattle.std.specs.List.{list_any};

use crate::ObjectLog;
use crate::guards::{Guards, are_both};
use bep_fit::Object;
use bep_record::DeviceId;

// Whether each object that is named has a log.
pub(crate) fn named_have_logs(logs: &[ObjectLog], guards: Guards) -> bool
    ensures { IsTrue result ↔ HaveLogs logs.now (named_by (meant guards)) }
{
    match guards {
        Guards::OfDevice(device) => one_has_log(logs, Object::Device(device)),
        Guards::OfDeviceAndLink(device, other) => {
            two_have_logs(logs, Object::Device(device), link_of(device, other))
        }
        Guards::OfLink(lower, upper) => one_has_log(logs, Object::Link(lower, upper)),
        Guards::OfDeviceAndLinks(device) => one_has_log(logs, Object::Device(device)),
    }
}

fn one_has_log(logs: &[ObjectLog], object: Object) -> bool
    ensures { IsTrue result ↔ HaveLogs logs.now (object ∷ []) }
{
    has_log(logs, object)
}

fn two_have_logs(logs: &[ObjectLog], object: Object, other: Object) -> bool
    ensures { IsTrue result ↔ HaveLogs logs.now (object ∷ other ∷ []) }
{
    let first = has_log(logs, object);
    let second = has_log(logs, other);
    are_both(first, second)
}

// The link between two devices, whichever is named first.
fn link_of(device: DeviceId, other: DeviceId) -> Object
    ensures { result ≡ link_of device other }
{
    if device < other {
        Object::Link(device, other)
    } else {
        Object::Link(other, device)
    }
}

// Whether one of the logs is of the object.
fn has_log(logs: &[ObjectLog], object: Object) -> bool
    ensures { IsTrue result ↔ HasLog logs.now object }
{
    any_is(logs, object)
}

fn any_is(logs: &[ObjectLog], object: Object) -> bool
    ensures { result ≡ list_any (λ (log : LogOf). is_same log.object object) logs.now }
{
    logs.iter().any(|log| is_same(log.object(), object))
}

fn is_same(one: Object, other: Object) -> bool
    ensures { result ≡ is_same one other }
{
    match one {
        Object::Device(device) => is_device(other, device),
        Object::Link(lower, upper) => is_link(other, lower, upper),
    }
}

fn is_device(object: Object, device: DeviceId) -> bool
    ensures { result ≡ is_device object device }
{
    match object {
        Object::Device(one) => one == device,
        Object::Link(_, _) => false,
    }
}

fn is_link(object: Object, lower: DeviceId, upper: DeviceId) -> bool
    ensures { result ≡ is_link object lower upper }
{
    match object {
        Object::Device(_) => false,
        Object::Link(low, high) => low == lower && high == upper,
    }
}
