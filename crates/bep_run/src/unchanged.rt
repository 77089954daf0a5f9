//! Whether a scanner has nothing to hash at a name.
ghost use Rattle.std.specs.Prelude.{◌↔◌, IsTrue};
ghost use Rattle.std.specs.Option.{option_copied};
ghost use Rattle.bep_run.specs.inner.Unchanged.{IsCleanHere, IsLentClean};

use bep_peer::Peer;
use bep_record::{FolderName, Name, Node, Record, is_clean};
use bep_store::Store;

/// Whether what stands at the name is known to be clean against the device's own record, so that a scan of it puts no record,
/// whatever its bytes are. It is known where the store lends the node: no bytes are copied, and the store isn't called.
pub(crate) fn is_known_clean<S: Store>(peer: &Peer<S>, folder: &FolderName, name: &Name) -> bool
    ensures { IsTrue result → IsCleanHere peer.now folder.now name.now }
{
    match peer.replica(folder) {
        Some(replica) => is_lent_clean(replica.at_hand(name), replica.index().get(name)),
        None => false,
    }
}

// Whether a node is lent, and is clean against the own record.
fn is_lent_clean(lent: Option<&Node>, own: Option<&Record>) -> bool
    ensures { IsTrue result ↔ IsLentClean (option_copied lent.entry) (option_copied own.entry) }
{
    lent.is_some() && is_clean(lent, own)
}
