//! Clearing what a device knows of another one's folders, where these are announced under other ids.
ghost use Rattle.std.specs.Prelude.{◌≡◌, ◌↔◌, Some, IsSome, IsTrue, IfErr, OnOk, OnErr};
ghost use Rattle.std.specs.FinMap as map;
ghost use Rattle.bep_folder.specs.Held.{Held};
ghost use Rattle.bep_folder.specs.Views.{with_exchanged};
ghost use Rattle.bep_index.specs.View.{cleared};
ghost use Rattle.bep_machine.specs.Exchange.{all_renewed};
ghost use Rattle.bep_peer.specs.Member.{tables_in};
ghost use Rattle.bep_peer.specs.inner.Renew.{AreFramed, AreSharedBy, ExchangesIn, IsUnder};
ghost use Rattle.bep_peer.specs.inner.Index.{IsSharedBy};
ghost use Rattle.bep_peer.specs.declared.error.PeerError.TheVariants.{Memory};

use crate::PeerError;
use bep_folder::{FolderError, Replica};
use bep_index::View;
use bep_machine::Announced;
use bep_map::FolderMap;
use bep_record::{DeviceId, FolderName};
use bep_store::Store;
use std::alloc::Global;

// Each folder's view of the other device stands under the announced id. It fails only for want of memory, and then all
// that was known is known again.
pub(crate) fn renew_all<S: Store>(
    folders: &mut FolderMap<Replica<S>>,
    alloc: Global,
    other: DeviceId,
    named: &[Announced],
) -> Result<(), PeerError>
    requires shared { AreSharedBy folders.old other named.now }
    ensures ok { OnOk result (tables_in folders.new ≡ all_renewed other named.now (tables_in folders.old)) }
    ensures framed { AreFramed folders.old folders.new }
    ensures only { IfErr result (λ e. e ≡ Memory) }
    ensures err { OnErr result (tables_in folders.new ≡ tables_in folders.old) }
{
    let Some((one, more)) = named.split_first() else {
        return Ok(());
    };
    if is_under(folders, other, one) {
        return renew_all(folders, alloc, other, more);
    }
    let empty = cleared(alloc, one.index_id);
    let before = exchange(folders, &one.folder, other, Some(empty))?;
    match renew_all(folders, alloc, other, more) {
        Ok(()) => Ok(()),
        Err(error) => {
            give_back(folders, &one.folder, other, before);
            Err(error)
        }
    }
}

// Whether the view of the other device's folder stands under the announced id.
fn is_under<S: Store>(folders: &FolderMap<Replica<S>>, other: DeviceId, one: &Announced) -> bool
    requires { IsSharedBy folders.now one.now.folder other }
    ensures { (held : Held) → map.get folders.now one.now.folder ≡ Some held → (IsTrue result ↔ IsUnder one.now.index_id (map.get held.tables.views other)) }
{
    match folders.get(&one.folder) {
        Some(replica) => match replica.view(other) {
            Some(view) => view.point().0 == one.index_id,
            None => false,
        },
        None => unreachable!(),
    }
}

// An empty view under this id.
fn cleared(alloc: Global, id: u64) -> View
    ensures { result ≡ cleared id }
{
    let mut view = View::empty(alloc);
    view.clear(id);
    view
}

// The folder's view of the other device becomes this one; answers the one before. It takes memory only where there was
// none.
fn exchange<S: Store>(
    folders: &mut FolderMap<Replica<S>>,
    folder: &FolderName,
    other: DeviceId,
    view: Option<View>,
) -> Result<Option<View>, PeerError>
    requires { IsSharedBy folders.old folder.now other }
    ensures { (held : Held) → map.get folders.old folder.now ≡ Some held → ExchangesIn folder.now other held view folders.old folders.new result }
{
    let Some(replica) = folders.get_mut(folder) else {
        unreachable!();
    };
    match replica.exchange_view(other, view) {
        Ok(before) => Ok(before),
        Err(FolderError::Memory) => Err(PeerError::Memory),
        Err(_) => unreachable!(),
    }
}

// What was known of the other device's folder is known again. It takes no memory.
fn give_back<S: Store>(
    folders: &mut FolderMap<Replica<S>>,
    folder: &FolderName,
    other: DeviceId,
    before: Option<View>,
)
    requires shared { IsSharedBy folders.old folder.now other }
    requires viewed { (held : Held) → map.get folders.old folder.now ≡ Some held → IsSome (map.get held.tables.views other) }
    ensures { (held : Held) → map.get folders.old folder.now ≡ Some held → folders.new ≡ map.insert folders.old folder.now (with_exchanged held other before) }
{
    match exchange(folders, folder, other, before) {
        Ok(_cleared) => {}
        Err(_) => unreachable!(),
    }
}
