//! What each reason asks of a device beside the top of a name.
ghost use Rattle.std.specs.Prelude.{◌≡◌, ◌≢◌, ◌⊎◌, ◌≤◌, ◌↔◌, IsTrue};
ghost use Rattle.std.specs.Option.{option_copied};
ghost use Rattle.bep_record.specs.declared.folder_kind.FolderKind.TheVariants as kinds;
ghost use Rattle.bep_record.specs.Vector.{counter_of};
ghost use Rattle.bep_model.specs.Settled.{content_of_node};
ghost use Rattle.bep_machine.specs.Effects.{content_owned};
ghost use Rattle.bep_machine.specs.Replica.{version_of};
ghost use Rattle.bep_converge.specs.Prevails.{IsNoLocalChange, IsAtTop};
ghost use Rattle.bep_converge_check.specs.inner.Asked.{AsksOwn, AsksOfShare};

use bep_audit::store_holds;
use bep_converge::ConvergeReason;
use bep_record::{DeviceId, FolderKind, Name, Node, Record, is_clean};
use bep_tables::Share;

/// Whether the share's device meets what the reason asks of it beside the top of the name.
pub(crate) fn meets(reason: ConvergeReason, top: &Record, name: &Name, share: &Share) -> bool
    ensures { IsTrue result ↔ AsksOfShare reason top.now name.now share.now }
{
    let (own, node) = (share.own.get(name), share.store.get(name));
    meets_own(reason, top, share.device, share.kind, own, node)
}

// Whether a device with this own record and this node meets it, which shares the folder in this kind.
fn meets_own(
    reason: ConvergeReason,
    top: &Record,
    device: DeviceId,
    kind: FolderKind,
    own: Option<&Record>,
    node: Option<&Node>,
) -> bool
    ensures { IsTrue result ↔ AsksOwn reason top.now device kind (option_copied own.entry) (option_copied node.entry) }
{
    match reason {
        ConvergeReason::LocalOnly => is_no_local_change(own),
        ConvergeReason::StoreUnclean => is_clean(node, own),
        ConvergeReason::StoreDiffers => holds_own(node, own),
        ConvergeReason::SendOnly => takes_or_is_at_top(kind, own, top),
        ConvergeReason::WouldCopy => counts_all(own, top, device),
        _ => true,
    }
}

/// Whether the own record isn't a local change, or there is none.
pub(crate) fn is_no_local_change(own: Option<&Record>) -> bool
    ensures { IsTrue result ↔ IsNoLocalChange (option_copied own.entry) }
{
    match own {
        None => true,
        Some(own) => !own.entry().invalid,
    }
}

/// Whether the store holds the content that the own record tells; nothing where there is none.
pub(crate) fn holds_own(node: Option<&Node>, own: Option<&Record>) -> bool
    ensures { IsTrue result ↔ (content_of_node (option_copied node.entry) ≡ content_owned (option_copied own.entry)) }
{
    match own {
        None => node.is_none(),
        Some(own) => store_holds(node, own),
    }
}

/// Whether the own record has the top's version; or there is none, and the top is a deletion.
pub(crate) fn is_at_top(own: Option<&Record>, top: &Record) -> bool
    ensures { IsTrue result ↔ IsAtTop (option_copied own.entry) top.now }
{
    match own {
        None => top.entry().deleted,
        Some(own) => {
            let (version, highest) = (&own.entry().version, &top.entry().version);
            version.is_at_most(highest) && highest.is_at_most(version)
        }
    }
}

/// Whether a device that shares the folder in this kind takes changes, or its own record is at the top.
pub(crate) fn takes_or_is_at_top(kind: FolderKind, own: Option<&Record>, top: &Record) -> bool
    ensures { IsTrue result ↔ (IsAtTop (option_copied own.entry) top.now ⊎ (kind ≢ kinds.SendOnly)) }
{
    kind != FolderKind::SendOnly || is_at_top(own, top)
}

/// Whether the top counts no more of the device's own changes than its own record does.
pub(crate) fn counts_all(own: Option<&Record>, top: &Record, device: DeviceId) -> bool
    ensures { IsTrue result ↔ (counter_of top.now.version device ≤ counter_of (version_of (option_copied own.entry)) device) }
{
    top.entry().version.get(device) <= counted(own, device)
}

/// How many of the device's own changes its own record counts.
pub(crate) fn counted(own: Option<&Record>, device: DeviceId) -> u64
    ensures { result ≡ counter_of (version_of (option_copied own.entry)) device }
{
    match own {
        None => 0,
        Some(own) => own.entry().version.get(device),
    }
}
