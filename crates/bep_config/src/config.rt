//! The configuration of a cluster.
ghost use Rattle.std.specs.Prelude.{◌≡◌, ◌↔◌, IfOk, IsTrue, OnOk, OnErr, IsErrOf};
ghost use Rattle.std.specs.Option.{option_copied};
ghost use Rattle.std.specs.Ordering.{nat_cmp};
ghost use Rattle.std.specs.Map.{lookup, keys_of};
ghost use Rattle.std.specs.BTreeMap.{is_at};
ghost use Rattle.std.specs.List.Sorted.{IsStrictlySortedBy};
ghost use Rattle.bep_record.specs.FolderName.{IsFolderName};
ghost use Rattle.bep_config.specs.Config.{nothing, by_name, by_share, by_ends, has_folder, has_device, has_link, Joins, IsConfig, IsNewFolder, with_folder, IsNewShare, with_share, IsNewLink, with_link, said_by};

use crate::growth::{add_share, has_room};
use crate::there::{has_folder, shares_folder};
use crate::{ConfigError, Sharing};
use bep_index::IndexId;
use bep_record::{DeviceId, FolderKind, FolderName, MAX_FOLDERS, RecordError};
use std::alloc::{AllocError, Global};
use std::collections::btree_map::Iter as MapIter;
use std::collections::btree_set::Iter as SetIter;
use std::collections::{BTreeMap, BTreeSet};
use std::marker::Model;

/// The parts of a configuration, for those who take it apart.
#[derive(Drop)]
pub struct ConfigParts<S> {
    /// The folders.
    pub folders: BTreeSet<FolderName>,
    /// The devices, each of which shares some folder.
    pub devices: BTreeSet<DeviceId>,
    /// What each device has of each folder that it shares.
    pub shares: BTreeMap<(FolderName, DeviceId), Sharing<S>>,
    /// The links, each by its two devices, the smaller first.
    pub links: BTreeSet<(DeviceId, DeviceId)>,
}

/// Which devices share which folders, each in which kind, with which index id and in which store, and which pairs of
/// devices have a link.
///
/// At most 16 folders and 16 devices; each device shares some folder; a link joins two of the devices, and stands once.
///
/// BEP v1, 'Cluster Config'; the limits are this project's profile.
pub struct Config<S> {
    folders: BTreeSet<FolderName>,
    devices: BTreeSet<DeviceId>,
    shares: BTreeMap<(FolderName, DeviceId), Sharing<S>>,
    links: BTreeSet<(DeviceId, DeviceId)>,
    alloc: Global,
}

// By hand: a caller's proof then sees one call where it lets go of one, and not each field (docs/developing.md).
impl<S: Drop> Drop for Config<S> {
    fn drop(self) {
        let Config {
            folders: _,
            devices: _,
            shares: _,
            links: _,
            alloc: _,
        } = self;
    }
}

impl<S> Model for Config<S> {
    ghost use Rattle.bep_config.specs.Config.{Configuration, IsConfig};

    ghost Value = { Configuration S };

    ghost view = { λ c. record { folders = c.folders.keys; devices = c.devices.keys; shares = c.shares.entries; links = c.links.keys } };

    ghost invariant = { λ c. IsConfig (record { folders = c.folders.keys; devices = c.devices.keys; shares = c.shares.entries; links = c.links.keys }) };
}

impl<S> Config<S> {
    /// The configuration without folders, devices and links. It takes no memory.
    pub fn empty(alloc: Global) -> Self
        ensures { result ≡ nothing }
    {
        Config {
            folders: BTreeSet::new(alloc),
            devices: BTreeSet::new(alloc),
            shares: BTreeMap::new(alloc),
            links: BTreeSet::new(alloc),
            alloc,
        }
    }

    /// Adds a folder that no device shares yet. Refuses `ConfigBad` where these bytes aren't 1 to 64 ASCII letters,
    /// digits, `-` and `_`, or there are 16 folders, or the folder is there; then all is as before. `Memory` may come in
    /// place of Ok alone, and leaves all as before too.
    pub fn add_folder(&mut self, name: &[u8]) -> Result<(), ConfigError>
        ensures ok { OnOk result (IsNewFolder self.old name.now × (self.new ≡ with_folder self.old name.now)) }

        ensures bad { IsErrOf result ConfigError.ConfigBad → ¬ IsNewFolder self.old name.now }
        ensures first { (¬ IsNewFolder self.old name.now) → IsErrOf result ConfigError.ConfigBad }
        ensures err { OnErr result (self.new ≡ self.old) }
    {
        let folder = self.new_folder(name)?;
        self.folders.insert(folder)?;
        Ok(())
    }

    // The folder of these bytes, where it may be added. Refuses what `add_folder` refuses.
    fn new_folder(&self, name: &[u8]) -> Result<FolderName, ConfigError>
        ensures name { IfOk result (λ folder. folder ≡ name.now) }
        ensures new { OnOk result (IsNewFolder self.now name.now) }
        ensures bad { IsErrOf result ConfigError.ConfigBad → ¬ IsNewFolder self.now name.now }
        ensures first { (¬ IsNewFolder self.now name.now) → IsErrOf result ConfigError.ConfigBad }
    {
        if self.folders.len() >= MAX_FOLDERS || has_folder(&self.folders, name) {
            return Err(ConfigError::ConfigBad);
        }
        read_folder(self.alloc, name)
    }

    /// Adds a link between two devices, which is down. Refuses `ConfigBad` where they aren't two devices of the
    /// configuration, the smaller first, or their link is there; then all is as before. `Memory` may come in place of Ok
    /// alone, and leaves all as before too.
    pub fn add_link(&mut self, a: DeviceId, b: DeviceId) -> Result<(), ConfigError>
        ensures ok { OnOk result (IsNewLink self.old a b × (self.new ≡ with_link self.old a b)) }

        ensures bad { IsErrOf result ConfigError.ConfigBad → ¬ IsNewLink self.old a b }
        ensures first { (¬ IsNewLink self.old a b) → IsErrOf result ConfigError.ConfigBad }
        ensures err { OnErr result (self.new ≡ self.old) }
    {
        if !self.joins(a, b) || self.links.contains(&(a, b)) {
            return Err(ConfigError::ConfigBad);
        }
        self.links.insert((a, b))?;
        Ok(())
    }

    // Whether these are two of the devices, the smaller first.
    fn joins(&self, a: DeviceId, b: DeviceId) -> bool
        ensures { IsTrue result ↔ Joins self.now.devices (a, b) }
    {
        a < b && self.devices.contains(&a) && self.devices.contains(&b)
    }

    /// The folders, names rising.
    pub fn folders(&self) -> SetIter<'_, FolderName>
        ensures value { result ≡ self.now.folders }
        ensures rising { IsStrictlySortedBy by_name self.now.folders }
        ensures a_config { IsConfig self.now }
    {
        self.folders.iter()
    }

    /// The devices, rising, each of which shares some folder.
    pub fn devices(&self) -> SetIter<'_, DeviceId>
        ensures value { result ≡ self.now.devices }
        ensures rising { IsStrictlySortedBy nat_cmp self.now.devices }
        ensures a_config { IsConfig self.now }
    {
        self.devices.iter()
    }

    /// What each device has of each folder that it shares, by rising folder and then by rising device.
    pub fn shares(&self) -> MapIter<'_, (FolderName, DeviceId), Sharing<S>>
        ensures value { result ≡ self.now.shares }
        ensures rising { IsStrictlySortedBy by_share (keys_of self.now.shares) }
        ensures a_config { IsConfig self.now }
    {
        self.shares.iter()
    }

    /// The links, each by its two devices, the smaller first; rising.
    pub fn links(&self) -> SetIter<'_, (DeviceId, DeviceId)>
        ensures value { result ≡ self.now.links }
        ensures rising { IsStrictlySortedBy by_ends self.now.links }
        ensures a_config { IsConfig self.now }
    {
        self.links.iter()
    }

    /// The parts, for a cluster that is made of them: stores move with them.
    pub fn into_parts(self) -> ConfigParts<S>
        ensures value { said_by result ≡ self }
        ensures a_config { IsConfig self }
    {
        let Config {
            folders,
            devices,
            shares,
            links,
            alloc: _,
        } = self;
        ConfigParts {
            folders,
            devices,
            shares,
            links,
        }
    }
}

impl<S: Drop> Config<S> {
    /// Adds a device that shares the folder in this kind, with this index id and this store. Refuses `ConfigBad` where
    /// the index id is 0, the folder isn't there, the device is new and there are 16, or it shares the folder already;
    /// then all is as before. `Memory` may come in place of Ok alone, and leaves all as before too. The store is used up
    /// in every case.
    pub fn add_device(
        &mut self,
        folder: &FolderName,
        device: DeviceId,
        kind: FolderKind,
        index_id: u64,
        store: S,
    ) -> Result<(), ConfigError>
        ensures ok { OnOk result (IsNewShare self.old folder.now device index_id × (self.new ≡ with_share self.old folder.now device (record { kind = kind; index_id = index_id; store = store }))) }

        ensures bad { IsErrOf result ConfigError.ConfigBad → ¬ IsNewShare self.old folder.now device index_id }
        ensures first { (¬ IsNewShare self.old folder.now device index_id) → IsErrOf result ConfigError.ConfigBad }
        ensures err { OnErr result (self.new ≡ self.old) }
    {
        let (key, index_id) = self.new_share(folder, device, index_id)?;
        let sharing = Sharing {
            kind,
            index_id,
            store,
        };
        self.put_share(key, sharing)?;
        Ok(())
    }

    // The folder with the device, and the index id, where they may be added. Refuses what `add_device` refuses.
    fn new_share(
        &self,
        folder: &FolderName,
        device: DeviceId,
        index_id: u64,
    ) -> Result<((FolderName, DeviceId), IndexId), ConfigError>
        ensures key { IfOk result (λ share. share.0 ≡ (folder.now, device)) }
        ensures index { IfOk result (λ share. share.1 ≡ index_id) }
        ensures new { OnOk result (IsNewShare self.now folder.now device index_id) }
        ensures bad { IsErrOf result ConfigError.ConfigBad → ¬ IsNewShare self.now folder.now device index_id }
        ensures first { (¬ IsNewShare self.now folder.now device index_id) → IsErrOf result ConfigError.ConfigBad }
    {
        let Some(index_id) = IndexId::read(index_id) else {
            return Err(ConfigError::ConfigBad);
        };
        if !self.folders.contains(folder) || !has_room(&self.devices, device) {
            return Err(ConfigError::ConfigBad);
        }
        if shares_folder(&self.shares, folder, device) {
            return Err(ConfigError::ConfigBad);
        }
        Ok(((folder.copy(self.alloc)?, device), index_id))
    }

    // Adds what the device has of the folder, where it is new; without memory all is as before.
    fn put_share(
        &mut self,
        key: (FolderName, DeviceId),
        sharing: Sharing<S>,
    ) -> Result<(), AllocError>
        requires { IsNewShare self.old key.0 key.1 sharing.index_id }
        ensures ok { OnOk result (self.new ≡ with_share self.old key.0 key.1 sharing) }
        ensures err { OnErr result (self.new ≡ self.old) }
    {
        let _number = key.1.number();
        add_share(&mut self.devices, &mut self.shares, key, sharing)?;
        Ok(())
    }
}

// The folder of these bytes. Refuses `ConfigBad` where they aren't its name.
fn read_folder(alloc: Global, name: &[u8]) -> Result<FolderName, ConfigError>
    ensures ok { IfOk result (λ folder. (folder ≡ name.now) × IsFolderName name.now) }
    ensures bad { IsErrOf result ConfigError.ConfigBad ↔ (¬ IsFolderName name.now) }
{
    match FolderName::read(alloc, name) {
        Ok(folder) => Ok(folder),
        Err(RecordError::Memory) => Err(ConfigError::Memory),
        Err(_) => Err(ConfigError::ConfigBad),
    }
}
