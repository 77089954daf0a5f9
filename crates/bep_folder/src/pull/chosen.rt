//! The record that the device chooses among those that it knows of a name.
ghost use Rattle.std.specs.Prelude.{◌≡◌, ◌≤◌, ◌<◌, ◌+◌, ◌++◌, ◌∷◌, [], ℕ, length, map, take, drop, Some, IfSome, IfNone};
ghost use Rattle.std.specs.List.Sorted.{IsStrictlyIncreasing};
ghost use Rattle.std.specs.Option.{option_copied};
ghost use Rattle.bep_record.specs.declared.entry.Entry.{Entry};
ghost use Rattle.bep_choice.specs.Choice.{Candidate, candidates_of, IsChoice};
ghost use Rattle.bep_model.specs.Winner.{beside};
ghost use Rattle.bep_machine.specs.Replica.{Chooses};
ghost use Rattle.bep_machine.specs.Pull.{ChoosesNone};
ghost use Rattle.bep_folder.specs.Held.{AreOthers};
ghost use Rattle.bep_folder.specs.inner.Chosen.{AreNamed, IsOf, IsOwn, record_in, viewed_among, known_by};

use crate::Replica;
use bep_choice::choose;
use bep_choice::laws::choice_is_of_the_set;
use bep_index::View;
use bep_map::DeviceMap;
use bep_record::{DeviceId, MAX_DEVICES, Name, Record};
use bep_store::Store;
use std::array;

impl<S: Store> Replica<S> {
    // The record that the device chooses among those that it knows of the name; `None` if none is valid.
    pub(crate) fn chosen(&self, name: &Name) -> Option<&Record>
        ensures chosen { IfSome result (λ one. Chooses self.now.device self.now.tables name.now one.now) }
        ensures only { (one : Entry) → Chooses self.now.device self.now.tables name.now one → option_copied result ≡ Some one }
        ensures none { IfNone result (ChoosesNone self.now.device self.now.tables name.now) }
        ensures named { IfSome result (λ one. IsOf name.now one.now) }
    {
        let own = self.index.get(name);
        best_known(self.device, own, &self.views, self.others.as_slice(), name)
    }
}

// The device's choice among its own record and those of its views.
fn best_known<'a>(
    device: DeviceId,
    own: Option<&'a Record>,
    views: &'a DeviceMap<View>,
    others: &[DeviceId],
    name: &Name,
) -> Option<&'a Record>
    requires others { AreOthers device others.now }
    requires own { IsOwn name.now (option_copied own) }
    ensures chosen { IfSome result (λ one. (from : ℕ) × IsChoice device (known_by device (option_copied own.entry) views.now name.now others.now) (from, one.now)) }
    ensures only { (one : Candidate) → IsChoice device (known_by device (option_copied own.entry) views.now name.now others.now) one → option_copied result ≡ Some one.1 }
    ensures named { IfSome result (λ one. IsOf name.now one.now) }
{
    let any = any_known(own, views, others, name)?;
    let mut found: [_; MAX_DEVICES] = array::from_fn(|_| (device, any));
    best_within(&mut found, device, own, views, others, name)
}

// Some record that is known of the name.
fn any_known<'a>(
    own: Option<&'a Record>,
    views: &'a DeviceMap<View>,
    others: &[DeviceId],
    name: &Name,
) -> Option<&'a Record>
    ensures { (device : ℕ) → IfNone result (known_by device (option_copied own.entry) views.now name.now others.now ≡ []) }
{
    match own {
        Some(own) => Some(own),
        None => any_viewed(views, others, name),
    }
}

fn any_viewed<'a>(
    views: &'a DeviceMap<View>,
    others: &[DeviceId],
    name: &Name,
) -> Option<&'a Record>
    ensures { IfNone result (viewed_among views.now name.now others.now ≡ []) }
{
    for other in others {
        match viewed(views, *other, name) {
            Some(entry) => return Some(entry),
            None => {}
        }
    }
    None
}

// The choice, with room for the candidates.
fn best_within<'a>(
    found: &mut [(DeviceId, &'a Record)],
    device: DeviceId,
    own: Option<&'a Record>,
    views: &'a DeviceMap<View>,
    others: &[DeviceId],
    name: &Name,
) -> Option<&'a Record>
    requires room { length others.now < length found.old }
    requires others { AreOthers device others.now }
    requires own { IsOwn name.now (option_copied own) }
    ensures chosen { IfSome result (λ one. (from : ℕ) × IsChoice device (known_by device (option_copied own.entry) views.now name.now others.now) (from, one.now)) }
    ensures only { (one : Candidate) → IsChoice device (known_by device (option_copied own.entry) views.now name.now others.now) one → option_copied result ≡ Some one.1 }
    ensures named { IfSome result (λ one. IsOf name.now one.now) }
{
    choice_is_of_the_set();
    let place = place_among(device, others);
    let lower = gather(found, 0, views, &others[..place], name);
    let middle = put(found, lower, device, own);
    let count = gather(found, middle, views, &others[place..], name);
    best(device, &found[..count])
}

// How many of the others are below the device.
fn place_among(device: DeviceId, others: &[DeviceId]) -> usize
    requires { AreOthers device others.now }
    ensures within { result ≤ length others.now }
    ensures rise { IsStrictlyIncreasing (take result others.now ++ device ∷ drop result others.now) }
{
    for (place, other) in others.iter().enumerate() {
        if *other > device {
            return place;
        }
    }
    others.len()
}

// Adds the records of the name that these devices are known to have, each beside its device, after the first `count`
// ones. Answers how many there are then.
fn gather<'a>(
    found: &mut [(DeviceId, &'a Record)],
    first: usize,
    views: &'a DeviceMap<View>,
    devices: &[DeviceId],
    name: &Name,
) -> usize
    requires { first + length devices.now ≤ length found.old }
    ensures candidates { candidates_of (take result found.new) ≡ candidates_of (take first found.old) ++ viewed_among views.now name.now devices.now }
    ensures named { AreNamed name.now (viewed_among views.now name.now devices.now) }
    ensures within { result ≤ first + length devices.now }
    ensures length { length found.new ≡ length found.old }
{
    let mut count = first;
    for other in devices {
        count = put(found, count, *other, viewed(views, *other, name));
    }
    count
}

// Adds the device with its record, if it has one, after the first ones. Answers how many there are then.
fn put<'a>(
    found: &mut [(DeviceId, &'a Record)],
    first: usize,
    device: DeviceId,
    entry: Option<&'a Record>,
) -> usize
    requires { first < length found.old }
    ensures candidates { candidates_of (take result found.new) ≡ candidates_of (take first found.old) ++ beside device (option_copied entry.entry) }
    ensures within { result ≤ first + 1 }
    ensures length { length found.new ≡ length found.old }
{
    match entry {
        Some(entry) => {
            found[first] = (device, entry);
            first + 1
        }
        None => first,
    }
}

// The record of the name in the view of a device.
fn viewed<'a>(views: &'a DeviceMap<View>, other: DeviceId, name: &Name) -> Option<&'a Record>
    ensures value { option_copied result ≡ record_in views.now name.now other }
    ensures named { IfSome result (λ one. IsOf name.now one.now) }
{
    match views.get(other) {
        Some(view) => view.get(name),
        None => None,
    }
}

// The choice of the candidates, whose devices rise.
fn best<'a>(device: DeviceId, candidates: &[(DeviceId, &'a Record)]) -> Option<&'a Record>
    requires { IsStrictlyIncreasing (map (λ one. one.0) candidates.now) }
    ensures chosen { IfSome result (λ one. (from : ℕ) × IsChoice device (candidates_of candidates.now) (from, one.now)) }
    ensures only { (one : Candidate) → IsChoice device (candidates_of candidates.now) one → option_copied result ≡ Some one.1 }
{
    match choose(device, candidates) {
        Some(place) => {
            let one = &candidates[place];
            Some(one.1)
        }
        None => None,
    }
}
