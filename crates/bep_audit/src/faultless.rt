//! Whether nothing fails at a name that has a row, found by one look at each device.
ghost use Rattle.std.specs.Prelude.{◌≡◌, ◌↔◌, ◌∷◌, [], IsTrue, IfSome, None, Some, Contains, map};
ghost use Rattle.std.specs.Option.{option_copied};
ghost use Rattle.bep_record.specs.Content.{content_of};
ghost use Rattle.bep_model.specs.Settled.{content_of_node, key_of};
ghost use Rattle.bep_tables.specs.declared.share.Share.{Share};
ghost use Rattle.bep_tables.specs.Cut.{tables_of};
ghost use Rattle.bep_tables.specs.Listed.{listed};
ghost use Rattle.bep_audit.specs.Group.{IsGroupOf};
ghost use Rattle.bep_audit.specs.inner.Faultless.{AsksAll, AsksAllHere, AsksAllElsewhere, PassesElsewhere};
ghost use Rattle.bep_audit.specs.inner.Walk.{FindsLeast};

use crate::group::has_known;
use crate::owns::own_among;
use crate::stored::node_among;
use crate::winner::is_winner_in;
use crate::{is_harmless, is_there, is_valid, says_as_winner, share_is_asked, store_holds};
use bep_model::Row;
use bep_record::{DeviceId, Node, Record, Same, is_clean};
use bep_tables::{Cut, Held, Share, Source, TableEntry, cut_says, entries_are_held};

/// Whether no reason fails at the row's name, as if there were no other row. It finds each device's own record and node
/// once, among the entries. A search for the least failure looks them up by the name, for each reason.
pub(crate) fn is_faultless<'a>(cut: &'a Cut, group: &[TableEntry<'a>], row: &Row) -> bool
    requires { IsGroupOf cut.now (key_of row.now) (map listed group.now) }
    ensures { IsTrue result → FindsLeast (tables_of cut.now) (row.now ∷ []) (λ key. key ≡ key_of row.now) None }
{
    cut_says();
    entries_are_held();
    share_is_asked();
    if !has_known(group) {
        return false;
    }
    if !is_winner_in(cut, group, row) {
        return false;
    }
    are_met(cut.shares(&row.folder), group, row)
}

// Whether each of the devices meets what all reasons ask of it.
fn are_met(shares: &[Share], group: &[TableEntry<'_>], row: &Row) -> bool
    ensures { IsTrue result ↔ ((share : Share) → Contains shares.now share → AsksAll row.now (map listed group.now) share.device) }
{
    match shares {
        [] => true,
        [first, others @ ..] => {
            is_met(first.device, None, group, row)
                && are_met_beside(node_among(group, first.device), others, group, row)
        }
    }
}

// Whether each of the other devices does. The holder is the first device's node, which has the winner's content.
fn are_met_beside(
    holder: Option<&Node>,
    shares: &[Share],
    group: &[TableEntry<'_>],
    row: &Row,
) -> bool
    requires { IfSome holder (λ one. content_of_node (Some one.now) ≡ content_of row.now.entry) }
    ensures { IsTrue result ↔ ((share : Share) → Contains shares.now share → AsksAll row.now (map listed group.now) share.device) }
{
    shares
        .iter()
        .all(|share| is_met(share.device, holder, group, row))
}

// Whether the device does. The holder is another device's node with the winner's content.
#[tactic(auto, unfolding(crate::specs::inner::Faultless::AsksAll))]
fn is_met(device: DeviceId, holder: Option<&Node>, group: &[TableEntry<'_>], row: &Row) -> bool
    requires { IfSome holder (λ one. content_of_node (Some one.now) ≡ content_of row.now.entry) }
    ensures { IsTrue result ↔ AsksAll row.now (map listed group.now) device }
{
    let own = own_among(group, device);
    let node = node_among(group, device);
    meets_here(own, node, holder, &row.entry) && meets_elsewhere(group, row, device, own)
}

// Whether the device meets it by its own record and its node.
#[tactic(auto, unfolding(crate::specs::inner::Faultless::AsksAllHere))]
fn meets_here(
    own: Option<&Record>,
    node: Option<&Node>,
    holder: Option<&Node>,
    winner: &Record,
) -> bool
    requires { IfSome holder (λ one. content_of_node (Some one.now) ≡ content_of winner.now) }
    ensures { IsTrue result ↔ AsksAllHere (option_copied own.entry) (option_copied node.entry) winner.now }
{
    is_there(own, winner)
        && says_as_winner(own, winner)
        && is_valid(own)
        && store_holds_as(node, holder, winner)
        && is_clean(node, own)
}

// Whether the store holds the winner's content. The bytes of a node that is the same as the holder aren't hashed again.
fn store_holds_as(node: Option<&Node>, holder: Option<&Node>, winner: &Record) -> bool
    requires { IfSome holder (λ one. content_of_node (Some one.now) ≡ content_of winner.now) }
    ensures { IsTrue result ↔ (content_of_node (option_copied node.entry) ≡ content_of winner.now) }
{
    match (node, holder) {
        (Some(node), Some(holder)) if node.same(holder) => true,
        _ => store_holds(node, winner),
    }
}

// Whether it does by its foreign records.
fn meets_elsewhere(
    group: &[TableEntry<'_>],
    row: &Row,
    device: DeviceId,
    own: Option<&Record>,
) -> bool
    ensures { IsTrue result ↔ AsksAllElsewhere row.now (map listed group.now) device (option_copied own.entry) }
{
    group
        .iter()
        .all(|entry| passes_elsewhere(row, entry, device, own))
}

// Whether the entry is of another device, or the device's own record or its node, or a harmless record.
#[tactic(auto, unfolding(crate::specs::inner::Faultless::PassesElsewhere))]
fn passes_elsewhere(
    row: &Row,
    entry: &TableEntry<'_>,
    device: DeviceId,
    own: Option<&Record>,
) -> bool
    ensures { IsTrue result ↔ PassesElsewhere device row.now (option_copied own.entry) (listed entry.now) }
{
    if entry.device != device {
        return true;
    }
    match entry.held {
        Held::Node(_) => true,
        Held::Record(Source::Own, _) => true,
        Held::Record(_, found) => is_harmless(own, &row.entry, found),
    }
}
