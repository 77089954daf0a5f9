//! The configuration of a cluster, made of what a scenario says of its start.
ghost use Rattle.std.specs.Prelude.{◌≡◌, IfOk, OnOk, IsErrOf};
ghost use Rattle.bep_scenario.specs.Configured.{start_of, with_shares, with_shared, with_folders, with_links, MayShare, MayBeShared, MayFolders, MayLink, MayStart};

use bep_config::{Config, ConfigError};
use bep_document::{CheckParts, FolderParts, LinkParts, ShareParts};
use bep_record::FolderName;
use bep_store::MemStore;
use std::alloc::Global;

/// The configuration at the start of a scenario: its folders, the devices that share them with stores that are empty, and
/// its links. Refuses `ConfigBad` where one of them may not be added in its turn; `Memory` may come in place of any answer.
///
/// This project's profile.
pub fn config_of(alloc: Global, cluster: &CheckParts) -> Result<Config<MemStore>, ConfigError>
    ensures ok { IfOk result (λ config. config ≡ start_of cluster.now) }
    ensures bad { IsErrOf result ConfigError.ConfigBad → ¬ MayStart cluster.now }
{
    let mut config = Config::empty(alloc);
    add_folders(alloc, &mut config, cluster.folders.as_slice())?;
    add_links(&mut config, cluster.links.as_slice())?;
    Ok(config)
}

fn add_folders(
    alloc: Global,
    config: &mut Config<MemStore>,
    folders: &[FolderParts],
) -> Result<(), ConfigError>
    ensures ok { OnOk result (config.new ≡ with_folders config.old folders.now) }
    ensures bad { IsErrOf result ConfigError.ConfigBad → ¬ MayFolders config.old folders.now }
{
    for folder in folders {
        add_shared(alloc, config, folder)?;
    }
    Ok(())
}

// Adds the folder, and the devices that share it.
fn add_shared(
    alloc: Global,
    config: &mut Config<MemStore>,
    folder: &FolderParts,
) -> Result<(), ConfigError>
    ensures ok { OnOk result (config.new ≡ with_shared config.old folder.now) }
    ensures bad { IsErrOf result ConfigError.ConfigBad → ¬ MayBeShared config.old folder.now }
{
    config.add_folder(folder.folder.as_bytes())?;
    add_shares(alloc, config, &folder.folder, folder.devices.as_slice())
}

fn add_shares(
    alloc: Global,
    config: &mut Config<MemStore>,
    folder: &FolderName,
    shares: &[ShareParts],
) -> Result<(), ConfigError>
    ensures ok { OnOk result (config.new ≡ with_shares config.old folder.now shares.now) }
    ensures bad { IsErrOf result ConfigError.ConfigBad → ¬ MayShare config.old folder.now shares.now }
{
    for share in shares {
        let store = MemStore::new(alloc);
        let index_id = share.index_id.number();
        config.add_device(folder, share.device, share.kind, index_id, store)?;
    }
    Ok(())
}

fn add_links(config: &mut Config<MemStore>, links: &[LinkParts]) -> Result<(), ConfigError>
    ensures ok { OnOk result (config.new ≡ with_links config.old links.now) }
    ensures bad { IsErrOf result ConfigError.ConfigBad → ¬ MayLink config.old links.now }
{
    for link in links {
        config.add_link(link.a, link.b)?;
    }
    Ok(())
}
