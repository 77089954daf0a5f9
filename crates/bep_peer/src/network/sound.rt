//! That devices and links are a sound cluster by their types. The functions change nothing; their contracts are the facts.
ghost use Rattle.std.specs.List.{AllByRecursion};
ghost use Rattle.bep_peer.specs.Sound.{IsSoundMember};
ghost use Rattle.bep_peer.specs.network.Agreed.{AreSoundWhereAgreed, IsSoundBetween, IsSoundWhereKept, network_of};

use crate::Peer;
use bep_links::Link;
use bep_store::Store;

/// Devices and links that agree on who shares what are a sound cluster, whatever calls made them. So is what a
/// `Cluster` keeps. It changes nothing, and takes no memory.
pub fn agreed_is_sound<S: Store>(peers: &[Peer<S>], links: &[Link])
    ensures agreed { AreSoundWhereAgreed (network_of peers.now links.now) }
    ensures kept { IsSoundWhereKept (network_of peers.now links.now) }
{
    members_are_sound(peers);
    links_are_sound(links);
}

fn members_are_sound<S: Store>(peers: &[Peer<S>])
    ensures { AllByRecursion IsSoundMember peers.now }
{
    for peer in peers {
        peer.member_is_sound();
    }
}

fn links_are_sound(links: &[Link])
    ensures { AllByRecursion IsSoundBetween links.now }
{
    for link in links {
        link.link_is_sound();
    }
}
