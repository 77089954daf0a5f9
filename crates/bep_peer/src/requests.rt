//! Where a request stands in a list, and whether bytes are the same.
ghost use Rattle.std.specs.Prelude.{◌≡◌, ◌<◌, ◌+◌, ◌++◌, length, take, drop, slice_get, Some, None, IfSome, IfNone};
ghost use Rattle.bep_machine.specs.Exchange.{asked_for, without, same_bytes};

use bep_machine::Request;

/// The place of the first request of this number.
pub(crate) fn place_of(requests: &[Request], id: u32) -> Option<usize>
    ensures some { IfSome result (λ place. (place < length requests.now) × (asked_for id requests.now ≡ slice_get requests.now place) × (without id requests.now ≡ take place requests.now ++ drop (place + 1) requests.now)) }
    ensures none { IfNone result ((asked_for id requests.now ≡ None) × (without id requests.now ≡ requests.now)) }
{
    for (place, request) in requests.iter().enumerate() {
        if request.id == id {
            return Some(place);
        }
    }
    None
}

/// Whether the bytes are the same.
pub(crate) fn same_bytes(one: &[u8], other: &[u8]) -> bool
    ensures { result ≡ same_bytes one.now other.now }
{
    one.cmp(other).is_eq()
}
