//! That devices and links of which a cut can be taken are a sound cluster, whose cut that is. The function changes nothing;
//! its contract is the fact.
ghost use Rattle.bep_cut.specs.Says.{AreSoundParts};

use bep_links::Link;
use bep_peer::{Peer, agreed_is_sound, tables_are_found};
use bep_store::Store;

/// Devices and links that agree on who shares what are a sound cluster, whatever was called of each, and wherever they come
/// from. It changes nothing, and takes no memory.
pub fn parts_are_sound<S: Store>(peers: &[Peer<S>], links: &[Link])
    ensures { AreSoundParts peers.now links.now }
{
    tables_are_found();
    agreed_is_sound(peers, links);
}
