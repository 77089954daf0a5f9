//! Clusters: the devices and the links between them.
ghost use Rattle.std.specs.Prelude.{◌≡◌, ◌≤◌, length, IfOk};
ghost use Rattle.std.specs.Option.{option_copied};
ghost use Rattle.std.specs.List.Sorted.{IsStrictlyIncreasing, IsStrictlySortedBy};
ghost use Rattle.bep_record.specs.declared.limits.TheConstants.{MAX_DEVICES};
ghost use Rattle.bep_config.specs.Config.{by_ends};
ghost use Rattle.bep_machine.specs.Sound.{IsSound};
ghost use Rattle.bep_core.specs.Begin.{begun};
ghost use Rattle.bep_peer.specs.network.Network.{IsNetwork, cluster_of, numbers_of, ends_of, member_at, between_at};
ghost use Rattle.bep_core.specs.Reached.{IsReached};

use crate::begin::{links_of, peers_of};
use crate::folders::folders_of;
use crate::others::{numbers_of, sharing_of};
use bep_config::{Config, ConfigParts};
use bep_links::Link;
use bep_machine::runs_are_gapless;
use bep_peer::{Peer, agreed_is_sound};
use bep_record::DeviceId;
use bep_store::Store;
use std::alloc::{AllocError, Global};
use std::marker::Model;

/// Devices that share folders, and the links between them.
///
/// BEP v1, 'Cluster Config'; at most 16 devices, and one link a pair, are this project's profile.
pub struct Cluster<S: Store> {
    pub(crate) peers: Vec<Peer<S>>,
    pub(crate) links: Vec<Link>,
    pub(crate) alloc: Global,
}

// By hand: a caller's proof then sees one call where it lets go of one, and not each field (docs/developing.md).
impl<S: Store> Drop for Cluster<S> {
    fn drop(self) {
        let Cluster {
            peers: _,
            links: _,
            alloc: _,
        } = self;
    }
}

impl<S: Store> Model for Cluster<S> {
    ghost use Rattle.bep_record.specs.contracts.folder_kind.FolderKind as folder_kind;
    ghost use Rattle.bep_record.specs.contracts.entry.Entry as entry;
    ghost use Rattle.bep_record.specs.contracts.node.NodeParts as parts;
    ghost use Rattle.bep_index.specs.contracts.send.Plan as plan;
    ghost use Rattle.bep_machine.specs.contracts.message.Request as request;
    ghost use Rattle.bep_folder.specs.Held.{held_code};
    ghost use Rattle.bep_links.specs.contracts.link.Link as link;
    ghost use Rattle.bep_peer.specs.Session.{session_code};
    ghost use Rattle.bep_peer.specs.Member.{member_code};
    ghost use Rattle.bep_peer.specs.contracts.trace.Trace as trace;
    ghost use Rattle.bep_peer.specs.network.Network.{Network, network_code, IsNetwork};

    ghost Value = { Network };

    ghost coded = { network_code (member_code (held_code folder_kind.the_row.coded entry.the_row.coded parts.the_row.coded) (session_code plan.the_row.coded request.the_row.coded) trace.the_row.coded) link.the_row.coded };

    ghost view = { λ c. record { members = c.peers.items; links = c.links.items } };

    ghost invariant = { λ c. IsNetwork (record { members = c.peers.items; links = c.links.items }) };
}

impl<S: Store> Cluster<S> {
    /// The cluster with which the configuration begins: each device has the folders that it shares, each in its kind, with
    /// its index id, its store and the others that share it; nothing is recorded or known, and all links are down, in epoch
    /// 0. Only want of memory is an error.
    pub fn new(alloc: Global, config: Config<S>) -> Result<Self, AllocError>
        ensures begun { IfOk result (λ made. made ≡ begun S.contents S.faults config) }
        ensures reached { IfOk result (λ made. IsReached (cluster_of made)) }
    {
        runs_are_gapless();
        let numbers = numbers_of(alloc, &config)?;
        let keys = sharing_of(alloc, &config)?;
        let joining = links_of(alloc, &config)?;
        let ConfigParts {
            folders: _folders,
            devices,
            shares,
            links,
        } = config.into_parts();
        let folders = folders_of(alloc, numbers.as_slice(), keys.as_slice(), shares)?;
        let made = Cluster {
            peers: peers_of(alloc, numbers.as_slice(), devices, &links, folders)?,
            links: joining,
            alloc,
        };
        made.cluster_is_sound();
        Ok(made)
    }

    /// The cluster is sound, whatever calls made it. Its devices and links are sound by their types, and they agree on
    /// who shares what. So all that is proved of every sound cluster is true of it, however it came about. It changes
    /// nothing, and takes no memory.
    pub fn cluster_is_sound(&self)
        ensures { IsSound (cluster_of self.now) }
    {
        agreed_is_sound(self.peers.as_slice(), self.links.as_slice());
    }

    /// The devices, rising.
    pub fn peers(&self) -> &[Peer<S>]
        ensures value { result.now ≡ self.now.members }
        ensures a_network { IsNetwork self.now }
    {
        self.peers.as_slice()
    }

    /// The links, rising by their two devices, the smaller first.
    pub fn links(&self) -> &[Link]
        ensures value { result.now ≡ self.now.links }
        ensures a_network { IsNetwork self.now }
    {
        self.links.as_slice()
    }

    /// The device of this number, if it is there.
    pub fn peer(&self, device: DeviceId) -> Option<&Peer<S>>
        ensures { option_copied result ≡ member_at self.now.members device }
    {
        self.peers.iter().find(|peer| peer.number() == device)
    }

    /// The link between the two devices, the smaller first, if it is there.
    pub fn link(&self, lower: DeviceId, upper: DeviceId) -> Option<&Link>
        ensures { option_copied result ≡ between_at self.now.links lower upper }
    {
        self.links.iter().find(|link| link.ends() == (lower, upper))
    }

    /// The devices and the links, each rising, for those who take the cluster apart.
    pub fn into_parts(self) -> (Vec<Peer<S>>, Vec<Link>)
        ensures peers { result.0.items ≡ self.members }
        ensures links { result.1.items ≡ self.links }
        ensures a_network { IsNetwork self }
    {
        let Cluster {
            peers,
            links,
            alloc: _,
        } = self;
        (peers, links)
    }
}
