//! Whether a pull is begun.
ghost use Rattle.std.specs.Prelude.{◌↔◌, IsTrue};
ghost use Rattle.bep_run.specs.inner.Starting.{HasNoPull};

use bep_peer::Peer;
use bep_record::{FolderName, Name};
use bep_store::Store;

/// Whether the device has no pull of the name yet. One that it has is kept: if its target isn't wanted any more, the end of
/// it drops it, and the next turn begins another.
pub(crate) fn has_no_pull<S: Store>(peer: &Peer<S>, folder: &FolderName, name: &Name) -> bool
    ensures { IsTrue result ↔ HasNoPull peer.now folder.now name.now }
{
    match peer.replica(folder) {
        Some(replica) => replica.pull(name).is_none(),
        None => true,
    }
}
