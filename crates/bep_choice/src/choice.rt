//! Which candidate a device chooses.
ghost use Rattle.std.specs.Prelude.{◌≡◌, ◌↔◌, ℕ, IsTrue, IsSome, IfSome, Contains, map};
ghost use Rattle.std.specs.List.Sorted.{IsStrictlyIncreasing};
ghost use Rattle.bep_choice.specs.Choice.{Candidate, candidate_of, candidates_of, choice_cmp, IsDominated, IsLeft, IsValidAmong, IsChoiceAt};

use bep_record::{DeviceId, Record};
use std::cmp::Ordering;

/// The place of the choice among the candidates, for the device that chooses; `None` exactly where each of them is
/// invalid, or there is none.
///
/// Candidates are pairs of a device and its record of one name, devices rising. An invalid record is passed over, and
/// so is one whose version is strictly below that of another. Of the rest one that isn't deleted comes first, then one
/// of a later time, of a smaller `modified_by`, the chooser's own, and that of the smaller device. This project's
/// profile.
pub fn choose(me: DeviceId, candidates: &[(DeviceId, &Record)]) -> Option<usize>
    requires { IsStrictlyIncreasing (map (λ one. one.0) candidates.now) }
    ensures found { IsSome result ↔ ((one : Candidate) × IsValidAmong (candidates_of candidates.now) one) }
    ensures choice { IfSome result (IsChoiceAt me (candidates_of candidates.now)) }
    ensures only { (place : ℕ) → IsChoiceAt me (candidates_of candidates.now) place → result ≡ Some place }
{
    let mut best: Option<usize> = None;
    for (place, one) in candidates.iter().enumerate() {
        if is_left(candidates, one) {
            best = match best {
                None => Some(place),
                Some(held) if is_before(me, one, &candidates[held]) => Some(place),
                Some(held) => Some(held),
            };
        }
    }
    best
}

// Whether the candidate isn't invalid, and no other that isn't invalid has a version strictly above its own.
fn is_left(candidates: &[(DeviceId, &Record)], one: &(DeviceId, &Record)) -> bool
    requires { Contains (candidates_of candidates.now) (candidate_of one.now) }
    ensures { IsTrue result ↔ IsLeft (candidates_of candidates.now) (candidate_of one.now) }
{
    if one.1.entry().invalid {
        return false;
    }
    for other in candidates {
        if is_dominated(one.1, other.1) {
            return false;
        }
    }
    true
}

// Whether the other record isn't invalid, and its version is strictly above this one's.
fn is_dominated(one: &Record, other: &Record) -> bool
    ensures { IsTrue result ↔ IsDominated one.now other.now }
{
    !other.entry().invalid && one.entry().version.is_below(&other.entry().version)
}

// Whether the first of the two comes before the second, for the device that chooses.
fn is_before(me: DeviceId, one: &(DeviceId, &Record), other: &(DeviceId, &Record)) -> bool
    ensures { IsTrue result ↔ (choice_cmp me (candidate_of one.now) (candidate_of other.now) ≡ Ordering.Less) }
{
    let (first, second) = (one.1.entry(), other.1.entry());
    let by_device = (other.0 == me)
        .cmp(&(one.0 == me))
        .then(one.0.cmp(&other.0));
    let by_changer = first.modified_by.cmp(&second.modified_by).then(by_device);
    let by_nanoseconds = second.modified_ns.cmp(&first.modified_ns).then(by_changer);
    let by_time = second
        .modified_s
        .cmp(&first.modified_s)
        .then(by_nanoseconds);
    first.deleted.cmp(&second.deleted).then(by_time).is_lt()
}
