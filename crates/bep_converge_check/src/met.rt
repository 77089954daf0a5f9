//! Whether the devices of a folder meet all that is asked of them beside the top of a name, found by one look at each.
ghost use Rattle.std.specs.Prelude.{◌≡◌, ◌↔◌, IsTrue, Contains};
ghost use Rattle.std.specs.Option.{option_copied};
ghost use Rattle.bep_model.specs.Settled.{content_of_node};
ghost use Rattle.bep_machine.specs.Effects.{content_owned};
ghost use Rattle.bep_tables.specs.declared.share.Share.{Share};
ghost use Rattle.bep_converge_check.specs.inner.Asked.{AsksAllOfShare};

use crate::meets::{counts_all, holds_own, is_no_local_change, takes_or_is_at_top};
use bep_record::{Name, Node, Record, Same, is_clean};
use bep_tables::Share;

/// Whether each of these devices meets what all reasons ask of it beside the top of the name. It looks each device's own record
/// and node up once. A search for the first reason that fails does so for each reason.
pub(crate) fn are_met(shares: &[Share], top: &Record, name: &Name) -> bool
    ensures { IsTrue result ↔ ((share : Share) → Contains shares.now share → AsksAllOfShare top.now name.now share) }
{
    match shares {
        [] => true,
        [first, others @ ..] => {
            let (held, holder) = (first.own.get(name), first.store.get(name));
            is_met(first, None, None, top, name) && are_met_beside(held, holder, others, top, name)
        }
    }
}

// Whether each of the other devices does. The first one's own record and its node have one content.
fn are_met_beside(
    held: Option<&Record>,
    holder: Option<&Node>,
    shares: &[Share],
    top: &Record,
    name: &Name,
) -> bool
    requires { content_of_node (option_copied holder) ≡ content_owned (option_copied held) }
    ensures { IsTrue result ↔ ((share : Share) → Contains shares.now share → AsksAllOfShare top.now name.now share) }
{
    shares
        .iter()
        .all(|share| is_met(share, held, holder, top, name))
}

// Whether the device does. Another one's own record and its node, or none of both, have one content.
#[tactic(auto, unfolding(crate::specs::inner::Asked::AsksAllOfShare))]
fn is_met(
    share: &Share,
    held: Option<&Record>,
    holder: Option<&Node>,
    top: &Record,
    name: &Name,
) -> bool
    requires { content_of_node (option_copied holder) ≡ content_owned (option_copied held) }
    ensures { IsTrue result ↔ AsksAllOfShare top.now name.now share.now }
{
    let (own, node) = (share.own.get(name), share.store.get(name));
    is_no_local_change(own)
        && is_clean(node, own)
        && holds_own_as(node, own, holder, held)
        && takes_or_is_at_top(share.kind, own, top)
        && counts_all(own, top, share.device)
}

// Whether the store holds the content that the own record tells. The bytes of a node that is the same as the holder aren't
// hashed again, where the record has the content of the held one.
fn holds_own_as(
    node: Option<&Node>,
    own: Option<&Record>,
    holder: Option<&Node>,
    held: Option<&Record>,
) -> bool
    requires { content_of_node (option_copied holder) ≡ content_owned (option_copied held) }
    ensures { IsTrue result ↔ (content_of_node (option_copied node.entry) ≡ content_owned (option_copied own.entry)) }
{
    match (node, own, holder, held) {
        (Some(node), Some(own), Some(holder), Some(held))
            if own.same_content(held) && node.same(holder) => { true }
        _ => holds_own(node, own),
    }
}
