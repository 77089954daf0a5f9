//! The winner of a name among the own records of the devices that share its folder.
ghost use Rattle.std.specs.Prelude.{◌≡◌, ◌≤◌, ◌↔◌, [], length, map, take, IsNone, IfSome, IfNone, MatchOption};
ghost use Rattle.std.specs.List.Sorted.{IsStrictlyIncreasing};
ghost use Rattle.std.specs.Option.{option_copied};
ghost use Rattle.bep_choice.specs.Choice.{Candidate, candidate_of, candidates_of, IsChoice};
ghost use Rattle.bep_tables.specs.Cut.{devices_of};
ghost use Rattle.bep_record.specs.declared.limits.TheConstants.{MAX_DEVICES};
ghost use Rattle.bep_audit.specs.Candidates.{own_by, owned_by, chooser_of};

use crate::owns::Owns;
use bep_choice::choose;
use bep_record::{DeviceId, MAX_DEVICES, Record};
use bep_tables::Share;
use std::array;

// The device and the record that win a name among these shares, whose own records of it are looked up there.
pub(crate) fn winner_among<'a>(
    shares: &'a [Share],
    owns: Owns<'_, 'a>,
) -> Option<(DeviceId, &'a Record)>
    requires few { length shares.now ≤ MAX_DEVICES }
    requires rise { IsStrictlyIncreasing (devices_of shares.now) }
    ensures wins { IfSome result (λ one. IsChoice (chooser_of shares.now) (owned_by (own_by owns.entry) shares.now) (candidate_of one)) }
    ensures none { IfNone result ((one : Candidate) → ¬ IsChoice (chooser_of shares.now) (owned_by (own_by owns.entry) shares.now) one) }
{
    match (first_device(shares), first_own(shares, owns)) {
        (Some(chooser), Some(own)) => {
            let mut found: [_; MAX_DEVICES] = array::from_fn(|_| (chooser, own));
            winner_within(&mut found, chooser, shares, owns)
        }
        _ => None,
    }
}

// The first of the devices, which choose.
fn first_device(shares: &[Share]) -> Option<DeviceId>
    requires { IsStrictlyIncreasing (devices_of shares.now) }
    ensures { MatchOption result (shares.now ≡ []) (λ device. device ≡ chooser_of shares.now) }
{
    match shares {
        [] => None,
        [first, ..] => Some(first.device),
    }
}

// The winner, with room for the candidates.
fn winner_within<'a>(
    found: &mut [(DeviceId, &'a Record)],
    chooser: DeviceId,
    shares: &'a [Share],
    owns: Owns<'_, 'a>,
) -> Option<(DeviceId, &'a Record)>
    requires room { length shares.now ≤ length found.old }
    requires rise { IsStrictlyIncreasing (devices_of shares.now) }
    ensures wins { IfSome result (λ one. IsChoice chooser (owned_by (own_by owns.entry) shares.now) (candidate_of one)) }
    ensures none { IfNone result ((one : Candidate) → ¬ IsChoice chooser (owned_by (own_by owns.entry) shares.now) one) }
{
    let count = gather(found, shares, owns);
    chosen(chooser, &found[..count])
}

// The choice of the candidates, whose devices rise.
fn chosen<'a>(
    chooser: DeviceId,
    candidates: &[(DeviceId, &'a Record)],
) -> Option<(DeviceId, &'a Record)>
    requires { IsStrictlyIncreasing (map (λ one. one.0) candidates.now) }
    ensures wins { IfSome result (λ one. IsChoice chooser (candidates_of candidates.now) (candidate_of one)) }
    ensures none { IfNone result ((one : Candidate) → ¬ IsChoice chooser (candidates_of candidates.now) one) }
{
    match choose(chooser, candidates) {
        None => None,
        Some(place) => {
            let one = &candidates[place];
            Some((one.0, one.1))
        }
    }
}

// The first of the own records of the name.
fn first_own<'a>(shares: &'a [Share], owns: Owns<'_, 'a>) -> Option<&'a Record>
    ensures { IsNone result ↔ (owned_by (own_by owns.entry) shares.now ≡ []) }
{
    for share in shares {
        match owns.of_share(share) {
            Some(own) => return Some(own),
            None => {}
        }
    }
    None
}

// Moves the own records of the name to the front, each beside its device, and answers how many there are.
fn gather<'a>(
    found: &mut [(DeviceId, &'a Record)],
    shares: &'a [Share],
    owns: Owns<'_, 'a>,
) -> usize
    requires { length shares.now ≤ length found.old }
    ensures candidates { candidates_of (take result found.new) ≡ owned_by (own_by owns.entry) shares.now }
    ensures within { result ≤ length found.new }
    ensures length { length found.new ≡ length found.old }
{
    let mut count = 0;
    for share in shares {
        match owns.of_share(share) {
            Some(own) => {
                found[count] = (share.device, own);
                count += 1;
            }
            None => {}
        }
    }
    count
}
