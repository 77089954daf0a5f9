//! Devices and links that log what they do.
use bep_config::Config;
use bep_core::Cluster;
use bep_log::{LogError, LoggedLink, LoggedPeer};
use bep_record::DeviceId;
use bep_store::MemStore;
use std::alloc::{AllocError, Global};

/// The devices and links of a cluster, each with its log.
#[derive(Drop)]
pub(crate) struct Logged {
    /// The devices, rising.
    pub(crate) peers: Vec<LoggedPeer<MemStore>>,
    /// The links, rising.
    pub(crate) links: Vec<LoggedLink>,
}

impl Logged {
    /// The cluster that is configured so, with empty logs.
    pub(crate) fn new(alloc: Global, config: Config<MemStore>) -> Result<Self, AllocError> {
        let (devices, joining) = Cluster::<MemStore>::new(alloc, config)?.into_parts();
        let mut peers = Vec::new(alloc);
        for peer in devices {
            peers.push(unless_wanting(LoggedPeer::new(alloc, peer))?)?;
        }
        let mut links = Vec::new(alloc);
        for link in joining {
            links.push(LoggedLink::new(alloc, link)?)?;
        }
        Ok(Logged { peers, links })
    }

    /// The device of this number.
    pub(crate) fn device(&mut self, number: DeviceId) -> Option<&mut LoggedPeer<MemStore>> {
        let place = self
            .peers
            .iter()
            .position(|peer| peer.peer().number() == number)?;
        self.peers.get_mut(place)
    }

    /// The link between the two.
    pub(crate) fn link(&mut self, one: DeviceId, other: DeviceId) -> Option<&mut LoggedLink> {
        let place = self.link_place(one, other)?;
        self.links.get_mut(place)
    }

    /// The device and its link with the other.
    pub(crate) fn device_and_link(
        &mut self,
        number: DeviceId,
        other: DeviceId,
    ) -> Option<(&mut LoggedPeer<MemStore>, &mut LoggedLink)> {
        let at_link = self.link_place(number, other)?;
        let Logged { peers, links } = self;
        let at_device = peers
            .iter()
            .position(|peer| peer.peer().number() == number)?;
        Some((peers.get_mut(at_device)?, links.get_mut(at_link)?))
    }

    // Where the link between the two stands, in whichever order they are named.
    fn link_place(&self, one: DeviceId, other: DeviceId) -> Option<usize> {
        let ends = if one < other {
            (one, other)
        } else {
            (other, one)
        };
        self.links
            .iter()
            .position(|link| link.link().ends() == ends)
    }
}

/// What was asked of a log of a device whose store can't fail; so only memory can be wanting.
pub(crate) fn unless_wanting<T: Drop>(made: Result<T, LogError>) -> Result<T, AllocError> {
    match made {
        Ok(made) => Ok(made),
        Err(_) => Err(AllocError),
    }
}
